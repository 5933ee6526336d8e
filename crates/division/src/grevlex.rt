// The place of a monomial in grevlex order, from 0, and the monomial at the place before.
ghost use Rattle.std.specs.Prelude.{◌≡◌, suc, ◌≤◌, ◌<◌};
ghost use Rattle.monomial.specs.Sizes.{most_variables};
ghost use Rattle.monomial.specs.Rows.{degree};
ghost use Rattle.monomial.specs.Represented.{row};
ghost use Rattle.division.specs.GrevlexPlace.{monomials_below, place, most_degree, space, PlaceIs};

use lines::sizes::MAX_STANDARD;
use monomial::count::Variables;
use monomial::variable::first_variable;
use monomial::{Exponent, MAX_VARIABLES, Monomial};

// The largest degree of a monomial, which the definitions have as most_degree.
const MAX_DEGREE: usize = MAX_VARIABLES + (MAX_STANDARD - 1);

// C(d + 4, 4) for that degree d: the number of monomials in four variables, which the definitions have as space.
pub const SPACE: usize = (MAX_DEGREE + 1) * (MAX_DEGREE + 2) * (MAX_DEGREE + 3) * (MAX_DEGREE + 4)
    / 24;

// One for each constant, whose value it says; a generic one would still be told which.
pub fn max_space() -> usize
    ensures { result ≡ space }
{
    SPACE
}

// C(d + k - 1, k), each from the one before.
fn monomials_below(k: usize, d: usize) -> usize
    requires { (k ≤ most_variables) × (d ≤ suc most_degree) }
    ensures { result ≡ monomials_below k d }
{
    let mut count = 1;
    for j in 0..k {
        count = (d + j) * count / (j + 1);
    }
    count
}

// The sum over the first i variables, for each i from 1 to n, of C(s + i - 1, i) for the sum s of their exponents.
pub fn place(m: Monomial, n: Variables) -> usize
    requires { degree n (row n m) ≤ most_degree }
    ensures { PlaceIs n (row n m) result }
{
    let mut at = 0;
    let mut sum = 0;
    for (i, x) in m.e[..n.count()].iter().enumerate() {
        sum += usize::from(x.0);
        at += monomials_below(i + 1, sum);
    }
    at
}

// The lowest sum of first exponents that is not 0 falls by 1, and all below it take its new value.
pub fn before(mut m: Monomial, n: Variables) -> Monomial
    requires { (degree n (row n m) ≤ most_degree) × (0 < place n (row n m)) }
    ensures { suc (place n (row n result)) ≡ place n (row n m) }
{
    let count = n.count();
    let i = first_variable(m, n).unwrap();
    let x = m.e[i].0 - 1;
    m.e[i] = Exponent(0);
    if i + 1 < count {
        m.e[i + 1].0 += 1;
    }
    m.e[0] = Exponent(x);
    m
}
