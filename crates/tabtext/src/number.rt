// Numbers of 1 to 5 digits with no leading zero, except 0 itself: read and printed.
ghost use Rattle.std.specs.Prelude.{◌≡◌, ◌+◌, ◌≤◌, length};
ghost use Rattle.tabtext.specs.Text.{Number as Small, decimal};
ghost use Rattle.tabtext.specs.Readers.{read_number};
ghost use Rattle.tabtext.specs.Answers.{DigitSays, NumberSays};

// The value of the digit at a place, where one stands.
fn digit_at(text: &[u8], i: usize) -> Option<u32>
    ensures { DigitSays text.now i result }
{
    let b = *text.get(i)?;
    if b.is_ascii_digit() {
        Some((b - b'0') as u32)
    } else {
        None
    }
}

// A digit that is not 0 and at most four more, or 0 alone: its value, and the place after it.
#[inline]
pub fn read_number(text: &[u8], at: usize) -> Option<(u32, usize)>
    ensures { NumberSays read_number text.now at result }
{
    let d = digit_at(text, at)?;
    let zero = d == 0;
    if zero {
        return Some((0, at + 1));
    }
    let end = at + 5;
    let mut v = d;
    for i in at + 1..end {
        let Some(e) = digit_at(text, i) else {
            return Some((v, i));
        };
        v = v * 10 + e;
    }
    Some((v, end))
}

// How many bytes a number is printed in.
pub fn number_width(v: u32) -> usize
    ensures width { result ≡ length (decimal v) }
    ensures short { Small v → result ≤ 5 }
    ensures fits { result ≤ v + 1 }
{
    if v < 10 {
        1
    } else if v < 100 {
        2
    } else if v < 1000 {
        3
    } else if v < 10000 {
        4
    } else {
        4 + number_width(v / 10000)
    }
}
