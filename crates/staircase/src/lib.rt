// The leading monomials of a basis that passed checks 2 to 11, and checks 12 to 14.
//
//   leads              leading monomials, and the test for their multiples
//   divided            check 12
//   zero_dimensional   check 13
//   next               the next monomial in lex that is no multiple
//   irreducible        check 14: all monomials that are none, in rising lex order, or that they are too many
//   place              their places in this list
//   ranks              their ranks
//   sort               this list in rising grevlex order
#![tactic(auto)]

pub mod divided;
pub mod irreducible;
pub mod leads;
pub mod next;
pub mod place;
pub mod ranks;
pub mod sort;
pub mod zero_dimensional;
