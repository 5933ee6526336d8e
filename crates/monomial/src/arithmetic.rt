// Product, quotient and least common multiple of monomials (document 01, "Words and orders").
ghost use Rattle.std.specs.Prelude.{◌≡◌, ℕ, ◌+◌, ◌-◌, ◌<◌, ◌≤◌, max};
ghost use Rattle.monomial.specs.Sizes.{most_variables};
ghost use Rattle.monomial.specs.Rows.{Row, exponent, one, product};
ghost use Rattle.monomial.specs.Quotients.{quotient, lcm};
ghost use Rattle.monomial.specs.Represented.{row, monomial, most_entry};
ghost use Rattle.monomial.specs.Combined.{Combines, Combined};

use crate::count::Variables;
use crate::{Exponent, MAX_VARIABLES, Monomial};

impl Exponent {
    // The sum of two exponents, which fits.
    fn add(self, other: Exponent) -> Exponent
        requires { self.0 + other.0 ≤ most_entry }
        ensures { result.0 ≡ self.0 + other.0 }
    {
        Exponent(self.0 + other.0)
    }

    // The difference of two exponents, of which the second is not the larger.
    fn sub(self, other: Exponent) -> Exponent
        requires { other.0 ≤ self.0 }
        ensures { result.0 ≡ self.0 - other.0 }
    {
        Exponent(self.0 - other.0)
    }

    // The larger of two exponents.
    fn larger(self, other: Exponent) -> Exponent
        ensures { result.0 ≡ max self.0 other.0 }
    {
        if self.0 < other.0 { other } else { self }
    }
}

impl Monomial {
    // The monomial 1.
    pub fn one() -> Monomial
        ensures { result ≡ monomial most_variables (one most_variables) }
    {
        Monomial {
            e: [Exponent(0); MAX_VARIABLES],
        }
    }

    // The monomial that f makes of self and other, exponent by exponent.
    fn combined<F: Fn(Exponent, Exponent) -> Exponent>(
        self,
        other: Monomial,
        n: Variables,
        f: F,
    ) -> Monomial
        requires combines { Combines n (λ x y. F.pre f x y) self other }
        ensures { (a : Row n) → Combined n (λ x y z. F.post f x y z) self other a → result ≡ monomial n a }
    {
        let mut m = Monomial::one();
        for i in 0..n.count() {
            m.e[i] = f(self.exponent(i), other.exponent(i));
        }
        m
    }

    // Exponents are added. Each sum fits an exponent.
    pub fn product(self, other: Monomial, n: Variables) -> Monomial
        requires { ((i : ℕ) → i < n → exponent n (row n self) i + exponent n (row n other) i ≤ most_entry) }
        ensures { result ≡ monomial n (product n (row n self) (row n other)) }
    {
        self.combined(other, n, Exponent::add)
    }

    // Exponents are subtracted. The divisor divides self.
    pub fn quotient(self, other: Monomial, n: Variables) -> Monomial
        requires { ((i : ℕ) → i < n → exponent n (row n other) i ≤ exponent n (row n self) i) }
        ensures { result ≡ monomial n (quotient n (row n self) (row n other)) }
    {
        self.combined(other, n, Exponent::sub)
    }

    // The larger of each two exponents.
    pub fn lcm(self, other: Monomial, n: Variables) -> Monomial
        ensures { result ≡ monomial n (lcm n (row n self) (row n other)) }
    {
        self.combined(other, n, Exponent::larger)
    }
}
