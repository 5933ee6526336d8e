// A basis in memory: its modulus, its number of variables, and its lines.
//
//   sizes         the sizes of a basis
//   inline_list   a list whose elements lie in the value itself
//   line          a line and its terms
//   store         a line is stored
#![tactic(auto)]

use crate::line::Generator;
use crate::sizes::MAX_LINES;
use arrayvec::ArrayVec;
use monomial::count::Variables;

pub mod inline_list;
pub mod line;
pub mod sizes;
pub mod store;

// The modulus, the number of variables, and the lines of a basis. A function that works on terms takes p and n apart: residues ask for the one, monomials for the other.
#[derive(Clone, Default, Drop)]
pub struct StoredBasis {
    pub p: u16,
    pub n: Variables,
    pub lines: ArrayVec<Generator, MAX_LINES>,
}
