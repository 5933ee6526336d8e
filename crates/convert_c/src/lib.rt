// The conversion as a static library, for callers in other languages: a pointer and a length for each buffer.
#![tactic(auto)]

ghost use Rattle.std.specs.Prelude.{ℕ, ◌≡◌, Result};
ghost use Rattle.answer.specs.Answers.{pair};
ghost use Rattle.answer.specs.declared.Refused.{Refused};
ghost use Rattle.convert.specs.Contract.{Meets};

use convert::convert;

// Document 01's pair: 0 and the length written, or the number of the refusal and its line.
#[repr(C)]
#[derive(Clone, Copy)]
pub struct Pair {
    pub number: u64,
    pub value: u64,
}

#[unsafe(no_mangle)]
pub extern "C" fn juirkes_convert(input: &[u8], output: &mut [u8]) -> Pair
    ensures { (a : Result ℕ Refused) × Meets input.now output.old output.new a × (pair a ≡ (result.number, result.value)) }
{
    match convert(input, &mut *output) {
        Ok(size) => Pair {
            number: 0,
            value: size as u64,
        },
        Err(refused) => Pair {
            number: refused.refusal.number() as u64,
            value: refused.line as u64,
        },
    }
}
