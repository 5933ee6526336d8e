// Divisibility of monomials, and powers of one variable (document 01, "Words and orders").
ghost use Rattle.std.specs.Prelude.{◌≡◌};
ghost use Rattle.monomial.specs.Quotients.{divides, is_power};
ghost use Rattle.monomial.specs.Represented.{row};

use crate::Monomial;
use crate::count::Variables;

impl Monomial {
    pub fn divides(self, other: Monomial, n: Variables) -> bool
        ensures { result ≡ divides n (row n self) (row n other) }
    {
        for i in 0..n.count() {
            if other.exponent(i).0 < self.exponent(i).0 {
                return false;
            }
        }
        true
    }

    // Whether self is a power of variable v, exponent 0 allowed: all other exponents are 0.
    pub fn is_power(self, v: usize, n: Variables) -> bool
        ensures { result ≡ is_power n v (row n self) }
    {
        for i in 0..n.count() {
            if i != v && self.exponent(i).0 != 0 {
                return false;
            }
        }
        true
    }
}
