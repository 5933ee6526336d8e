// The variables as monomials, the first one of a monomial, and quotients by them.
ghost use Rattle.std.specs.Prelude.{◌≡◌, ℕ, ◌≤◌, ◌<◌};
ghost use Rattle.monomial.specs.Sizes.{most_variables};
ghost use Rattle.monomial.specs.Rows.{exponent};
ghost use Rattle.monomial.specs.Quotients.{quotient, variable as x};
ghost use Rattle.monomial.specs.Represented.{row};
ghost use Rattle.monomial.specs.FirstVariable.{FirstVariable};

use crate::count::Variables;
use crate::{Exponent, Monomial};

// Variable i.
pub fn variable(i: usize) -> Monomial
    requires { i < most_variables }
    ensures { (n : ℕ) → n ≤ most_variables → i < n → row n result ≡ x n i }
{
    let mut m = Monomial::one();
    m.e[i] = Exponent(1);
    m
}

// The first variable that divides m, if m is not 1.
pub fn first_variable(m: Monomial, n: Variables) -> Option<usize>
    ensures { FirstVariable n (row n m) result }
{
    m.e[..n.count()].iter().position(|e| e.0 != 0)
}

// m / x_i, for x_i that divides m.
pub fn over_variable(m: Monomial, i: usize, n: Variables) -> Monomial
    requires { (i < n) × (0 < exponent n (row n m) i) }
    ensures { row n result ≡ quotient n (row n m) (x n i) }
{
    prove!(i < n.count());
    m.quotient(variable(i), n)
}
