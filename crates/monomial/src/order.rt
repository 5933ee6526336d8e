// Three-way comparison in grevlex, and rankings of the variables for lex (document 01, "Words and orders").
ghost use Rattle.std.specs.Prelude.{◌≡◌, ℕ, ◌<◌, ◌≤◌, take};
ghost use Rattle.monomial.specs.Sizes.{most_variables};
ghost use Rattle.monomial.specs.Rows.{exponent, degree};
ghost use Rattle.monomial.specs.Orders.{compared, lex, variables, backwards, grevlex};
ghost use Rattle.monomial.specs.Represented.{row};

use crate::count::Variables;
use crate::{MAX_VARIABLES, Monomial};
use std::cmp::Ordering;

// The variables from greatest to least, counted from 0: the first n places.
#[derive(Clone, Copy)]
pub struct Ranking {
    pub variables: [usize; MAX_VARIABLES],
}

// Document 01's order of the variables.
pub fn x1_to_xn() -> Ranking
    ensures { (n : ℕ) → n ≤ most_variables → take n result.variables ≡ variables n }
{
    Ranking {
        variables: [0, 1, 2, 3],
    }
}

impl Monomial {
    // The exponents of variable v, compared.
    fn compare_at(self, other: Monomial, v: usize) -> Ordering
        requires { v < most_variables }
        ensures { (n : ℕ) → v < n → result ≡ compared (exponent n (row n self) v) (exponent n (row n other) v) }
    {
        self.exponent(v).cmp(&other.exponent(v))
    }

    // The last variable in which the exponents differ decides.
    fn compare_backwards(self, other: Monomial, n: Variables) -> Ordering
        ensures { result ≡ lex n (backwards n) (row n self) (row n other) }
    {
        for i in (0..n.count()).rev() {
            let c = self.compare_at(other, i);
            match c {
                Ordering::Equal => {}
                _ => {
                    return c;
                }
            }
        }
        Ordering::Equal
    }

    // The total degree.
    pub fn degree(self, n: Variables) -> u32
        ensures { result ≡ degree n (row n self) }
    {
        let mut d: u32 = 0;
        for i in 0..n.count() {
            d += self.exponent(i).0 as u32;
        }
        d
    }

    // Grevlex: the degrees decide; at equal degree the last variable in which the exponents differ, where the smaller exponent is the greater monomial.
    pub fn compare_grevlex(self, other: Monomial, n: Variables) -> Ordering
        ensures { result ≡ grevlex n (row n self) (row n other) }
    {
        self.degree(n)
            .cmp(&other.degree(n))
            .then_with(|| other.compare_backwards(self, n))
    }
}
