// Sinks: where the bytes of a text go. One printer serves to count the bytes and to write them.
//
//   Sink    a place for bytes, one after the other
//   Count   counts the bytes
//   Front   writes them into a lent slice, from a place on
ghost use Rattle.std.specs.Prelude.{◌≡◌, ℕ, [], ◌∷◌, length};
ghost use Rattle.lists.specs.Lists.{Bytes};
ghost use Rattle.tabtext.specs.Text.{decimal};
ghost use Rattle.tabtext.specs.Sinks.{SinkLaws, CountTakes, counted, count_laws, FrontTakes, written, front_laws};

use crate::number::number_width;

pub trait Sink {
    // It takes so many bytes more.
    ghost takes: { Self → ℕ → Type 0 };

    // The sink after the bytes.
    ghost after: { Self → Bytes → Self };

    fn put_bytes(&mut self, bytes: &[u8])
        requires { takes self.old (length bytes.now) }
        ensures { self.new ≡ after self.old bytes.now };

    fn put(&mut self, byte: u8)
        requires { takes self.old 1 }
        ensures { self.new ≡ after self.old (byte ∷ []) }
    {
        self.put_bytes(&[byte]);
    }

    // The digits of v. The count asks for none of them, so each sink has its own way.
    fn put_number(&mut self, v: u32)
        requires { takes self.old (length (decimal v)) }
        ensures { self.new ≡ after self.old (decimal v) };

    ghost laws: { SinkLaws takes after };
}

// The number of bytes; at the largest number it stays.
#[derive(Drop)]
pub struct Count {
    pub bytes: usize,
}

impl Sink for Count {
    ghost takes = { CountTakes };

    ghost after = { counted };

    ghost laws = { count_laws };

    fn put_bytes(&mut self, bytes: &[u8]) {
        self.bytes = self.bytes.saturating_add(bytes.len());
    }

    fn put_number(&mut self, v: u32) {
        self.bytes = self.bytes.saturating_add(number_width(v));
    }
}

// The bytes are written into the slice from the place `at` on, which moves past them.
#[derive(Drop)]
pub struct Front<'a> {
    pub out: &'a mut [u8],
    pub at: usize,
}

impl Sink for Front<'_> {
    ghost takes = { FrontTakes };

    ghost after = { written };

    ghost laws = { front_laws };

    fn put_bytes(&mut self, bytes: &[u8]) {
        let end = self.at + bytes.len();
        self.out[self.at..end].copy_from_slice(bytes);
        self.at = end;
    }

    fn put_number(&mut self, v: u32) {
        if v < 10 {
            self.put(b'0' + v as u8);
            return;
        }
        self.put_number(v / 10);
        self.put(b'0' + (v % 10) as u8);
    }
}
