// The basis that a text holds, or its refusal: checks 2 to 11 of document 01, line by line.
//
//   header      the basis line: 3, 4, 5
//   term        a term: 10, 6, 7, and 9 or 8
//   generator   a poly line: its terms in turn
//   basis       the lines of a text in turn
#![tactic(auto)]

pub mod basis;
pub mod generator;
pub mod header;
pub mod term;
