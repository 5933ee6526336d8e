// The checks of the basis line: 3, 4, 5.
ghost use Rattle.std.specs.Prelude.{◌≡◌, true, ◌↔◌, ◌-◌, ◌≤◌, length, take, drop};
ghost use Rattle.answer.specs.Verdicts.{outcome};
ghost use Rattle.tabtext.specs.Text.{bytes};
ghost use Rattle.checks.specs.Checks.{check_header};

use answer::{Check, Refusal};
use monomial::MAX_VARIABLES;
use residue::prime::is_modulus;
use tabtext::record::{Header, Span, word_at};

// Whether the order word is grevlex.
fn is_grevlex(text: &[u8], word: Span) -> bool
    requires { (word.start ≤ word.end) × (word.end ≤ length text.now) }
    ensures { (result ≡ true) ↔ (take (word.end - word.start) (drop word.start text.now) ≡ bytes "grevlex") }
{
    if word.end - word.start != 7 {
        return false;
    }
    word_at(text, word.start, b"grevlex")
}

pub fn check_header(text: &[u8], h: Header) -> Check
    requires { (h.order.start ≤ h.order.end) × (h.order.end ≤ length text.now) }
    ensures { check_header (take (h.order.end - h.order.start) (drop h.order.start text.now)) h.p h.n (outcome result) }
{
    if !is_grevlex(text, h.order) {
        return Err(Refusal::OrderNotGrevlex);
    }
    if !is_modulus(h.p) {
        return Err(Refusal::BadPrime);
    }
    if h.n < 1 || (MAX_VARIABLES as u32) < h.n {
        return Err(Refusal::BadVariableCount);
    }
    Ok(())
}
