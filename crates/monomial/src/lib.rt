// Monomials in n variables, of which n is at most MAX_VARIABLES (document 01, "Words and orders").
//
//   Exponent      an exponent, a type of its own so that a coefficient cannot pass as one
//   Monomial      a row of exponents; the places from n on are 0
//   count         the number of variables
//   order         three-way comparison in grevlex, and rankings of the variables
//   arithmetic    product, quotient, least common multiple
//   divisibility  divides, and the test for a power of one variable
//   variable      the variables, the first one of a monomial, and quotients by them
//   rank          monomials as numbers, in grevlex order
#![tactic(auto)]

ghost use Rattle.std.specs.Prelude.{◌≡◌, ℕ, ◌<◌};
ghost use Rattle.monomial.specs.Sizes.{most_variables, most_exponent};
ghost use Rattle.monomial.specs.Rows.{exponent};
ghost use Rattle.monomial.specs.Represented.{row};

pub mod arithmetic;
pub mod count;
pub mod divisibility;
pub mod order;
pub mod rank;
pub mod variable;

// The largest number of variables, which the definitions have as most_variables.
pub const MAX_VARIABLES: usize = 4;

// The largest exponent of a text, which the definitions have as most_exponent.
pub const MAX_EXPONENT: u8 = 32;

#[derive(Clone, Copy, Default, PartialEq, Eq, PartialOrd, Ord)]
pub struct Exponent(pub u8);

#[derive(Clone, Copy, Default, PartialEq, Eq)]
pub struct Monomial {
    pub e: [Exponent; MAX_VARIABLES],
}

impl Monomial {
    // The exponent of variable i, counted from 0.
    pub fn exponent(self, i: usize) -> Exponent
        requires { i < most_variables }
        ensures { (n : ℕ) → i < n → result.0 ≡ exponent n (row n self) i }
    {
        self.e[i]
    }
}

// One for each constant, whose value it says; a generic one would still be told which.
pub fn max_variables() -> usize
    ensures { result ≡ most_variables }
{
    MAX_VARIABLES
}

pub fn max_exponent() -> u8
    ensures { result ≡ most_exponent }
{
    MAX_EXPONENT
}
