// Division by the lines of a basis, and the line that check 15 names (document 01, refusal 15).
//
//   grevlex       the place of a monomial in grevlex order
//   division      division by the lines, on a lent array of coefficients
//   pairs         check 15: the S-polynomials in turn
#![tactic(auto)]

pub mod division;
pub mod grevlex;
pub mod pairs;
