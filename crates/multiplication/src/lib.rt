// Multiplication rows: the products of the irreducible monomials with the variables, as coordinates (document 01, refusal 15).
//
//   rows          the places of the rows of the products x_i·B_s, and what these rows make of coordinates
//   fill          these rows, filled in rising order of the products
//   commute       whether these rows commute
//   criterion     check 15: whether the lines are a Groebner basis, by these rows and the number of the lines
#![tactic(auto)]

pub mod commute;
pub mod criterion;
pub mod fill;
pub mod rows;
