// Row elimination, and with it the enumeration of monomials in lex order.
//
//   elimination   the reduced rows of the vectors added so far
//   enumeration   the FGLM enumeration
//   lex_basis     the lines and the standard monomials that are found
//   image         the row of a monomial, from those of the standard monomials
//   line          the line of a monomial that depends on standard monomials
#![tactic(auto)]

pub mod elimination;
pub mod enumeration;
pub mod image;
pub mod lex_basis;
pub mod line;
