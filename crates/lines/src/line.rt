// A line of a basis.
ghost use Rattle.std.specs.Prelude.{◌≡◌};
ghost use Rattle.lines.specs.LineTerms.{no_term, monomial_at};

use crate::inline_list::{Blank, InlineList};
use crate::sizes::MAX_TERMS;
use monomial::Monomial;
use residue::Residue;

// A term of a line.
#[derive(Clone, Copy, Default)]
pub struct LineTerm {
    pub coefficient: Residue,
    pub monomial: Monomial,
}

impl Blank for LineTerm {
    ghost blank = { no_term };

    fn blank() -> Self {
        LineTerm {
            coefficient: Residue::ZERO,
            monomial: Monomial::one(),
        }
    }
}

// A monic line: its terms, greatest first.
pub type Generator = InlineList<LineTerm, MAX_TERMS>;

// The leading monomial of a line; 1 if it has no terms.
pub fn lead(g: &[LineTerm]) -> Monomial
    ensures { result ≡ monomial_at g.now 0 }
{
    g.first().map_or(Monomial::one(), |t| t.monomial)
}
