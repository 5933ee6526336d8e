// The tab text: numbers, rows of exponents, terms and the five line kinds, read and printed (document 01, "The tab text").
//
//   sizes     the size of a text
//   sink      where printed bytes go
//   number    numbers of 1 to 5 digits
//   terms     rows of exponents, and terms
//   record    the record of a line: its number and one of five kinds
//   print     values of the code, printed as lines
#![tactic(auto)]

pub mod number;
pub mod print;
pub mod record;
pub mod sink;
pub mod sizes;
pub mod terms;
