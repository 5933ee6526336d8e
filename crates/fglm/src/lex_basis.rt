// The lex basis that the enumeration finds, and its standard monomials.
use arrayvec::ArrayVec;
use lines::line::Generator;
use lines::sizes::MAX_LINES;
use staircase::irreducible::Irreducibles;

// The lines and the standard monomials, both in rising order.
#[derive(Clone, Default, Drop)]
pub struct LexBasis {
    pub lines: ArrayVec<Generator, MAX_LINES>,
    pub standard: Irreducibles,
}
