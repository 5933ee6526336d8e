// Division by the lines of a basis, on a lent array of coefficients: that of a monomial stands at its place in grevlex order.
//
//   generator_at            a line of a basis
//   add_term, add_product   a term, a multiple of a line are added
//   add_line                the multiple of a line whose leading monomial is given is added
//   earliest                the earliest leading monomial that divides a monomial
//   sweep                   all monomials in turn, from the greatest down
ghost use Rattle.std.specs.Prelude.{◌≡◌, true, [], ◌∷◌, ◌≤◌, ◌<◌, length, position};
ghost use Rattle.residue.specs.Field.{residue};
ghost use Rattle.monomial.specs.Rows.{product};
ghost use Rattle.monomial.specs.Quotients.{divides};
ghost use Rattle.monomial.specs.Represented.{row};
ghost use Rattle.lines.specs.LineTerms.{monomial_at};
ghost use Rattle.staircase.specs.Sound.{generator_at, SoundLine};
ghost use Rattle.division.specs.CoefficientArray.{Addend, AddsPolynomial};
ghost use Rattle.division.specs.Clearing.{product_of, multiple_of, Dividend, Sweeps};

use crate::grevlex::{before, place};
use lines::StoredBasis;
use lines::line::{LineTerm, lead};
use monomial::Monomial;
use monomial::count::Variables;
use residue::Residue;
use staircase::leads::leads_of;

// Line k of a basis, from 0.
pub fn generator_at(basis: &StoredBasis, k: usize) -> &[LineTerm]
    requires { k < length basis.now.lines.items }
    ensures { result.now ≡ generator_at basis.now k }
{
    &basis.lines[k]
}

// c·m is added.
fn add_term(work: &mut [u16], c: Residue, m: Monomial, p: u16, n: Variables)
    requires { Addend p n work.old c.0 (row n m) }
    ensures { AddsPolynomial p n work.old work.new (λ h. (residue p h c.0, row n m) ∷ []) }
{
    let at = place(m, n);
    let old = Residue(work[at]);
    work[at] = old.add(c, p).0;
}

// c·u·g is added.
fn add_product(work: &mut [u16], c: Residue, u: Monomial, g: &[LineTerm], p: u16, n: Variables)
    requires { SoundLine p n g.now × Addend p n work.old c.0 (product n (row n u) (row n (monomial_at g.now 0))) }
    ensures { AddsPolynomial p n work.old work.new (product_of p n g.now c.0 (row n u)) }
{
    for t in g {
        add_term(
            work,
            c.mul(t.coefficient, p),
            u.product(t.monomial, n),
            p,
            n,
        );
    }
}

// c·u·g is added, for m = u·lead g.
pub fn add_line(work: &mut [u16], c: Residue, m: Monomial, g: &[LineTerm], p: u16, n: Variables)
    requires { SoundLine p n g.now × Addend p n work.old c.0 (row n m) × (divides n (row n (monomial_at g.now 0)) (row n m) ≡ true) }
    ensures { AddsPolynomial p n work.old work.new (multiple_of p n g.now c.0 (row n m)) }
{
    let u = m.quotient(lead(g), n);
    add_product(work, c, u, g, p, n);
}

// The place of the earliest leading monomial that divides m.
fn earliest(leads: &[Monomial], m: Monomial, n: Variables) -> Option<usize>
    ensures { result ≡ position (λ d. divides n (row n d) (row n m)) leads.now }
{
    leads.iter().position(|d| d.divides(m, n))
}

// Whether the remainder of what the array holds is zero: each monomial in turn, from the greatest down, is cleared by the earliest line that divides it.
// The array is zero at top and above it.
pub fn sweep(work: &mut [u16], basis: &StoredBasis, top: Monomial) -> bool
    requires { Dividend basis.now work.old (row basis.now.n top) }
    ensures { Sweeps basis.now work.old work.new result }
{
    let leads = leads_of(basis);
    let mut m = top;
    for at in (0..place(top, basis.n)).rev() {
        m = before(m, basis.n);
        let c = Residue(work[at]);
        if !c.is_zero() {
            let Some(k) = earliest(&leads, m, basis.n) else {
                return false;
            };
            let g = generator_at(basis, k);
            add_line(work, c.neg(basis.p), m, g, basis.p, basis.n);
        }
    }
    true
}
