// Check 15: the smallest line whose S-polynomial with an earlier line leaves a remainder, by division on a lent array of coefficients.
//
//   lead_lcm         the least common multiple of two leading monomials
//   load_pair        the S-polynomial of two lines, into the array
//   pair_fails       whether its remainder is not zero
//   earlier_fails    whether it is so for a line and an earlier one
//   first_failing    the number of the first line for which it is so
ghost use Rattle.std.specs.Prelude.{◌≡◌, ◌≤◌, ◌<◌, length};
ghost use Rattle.monomial.specs.Represented.{row};
ghost use Rattle.division.specs.GrevlexPlace.{space};
ghost use Rattle.division.specs.CoefficientArray.{AddsPolynomial};
ghost use Rattle.division.specs.PairRemainders.{leads_lcm, Pairable, PairableOn, PairOf, pair_difference, PairSays, EarlierSays, FirstFailing};

use crate::division::{add_line, generator_at, sweep};
use lines::StoredBasis;
use lines::line::lead;
use monomial::Monomial;
use residue::Residue;

// The least common multiple of the leading monomials of lines i and j, counted from 0.
fn lead_lcm(basis: &StoredBasis, i: usize, j: usize) -> Monomial
    requires { (i < length basis.now.lines.items) × (j < length basis.now.lines.items) }
    ensures { row basis.now.n result ≡ leads_lcm basis.now i j }
{
    let f = lead(generator_at(basis, i));
    let g = lead(generator_at(basis, j));
    f.lcm(g, basis.n)
}

// The S-polynomial of lines i and j is added; top is the least common multiple of their leading monomials.
fn load_pair(work: &mut [u16], basis: &StoredBasis, i: usize, j: usize, top: Monomial)
    requires { PairOf basis.now work.old i j (row basis.now.n top) }
    ensures { let b = basis.now in AddsPolynomial b.p b.n work.old work.new (pair_difference b i j) }
{
    let one = Residue::ONE;
    let p = basis.p;
    let f = generator_at(basis, i);
    let g = generator_at(basis, j);
    add_line(work, one, top, f, p, basis.n);
    add_line(work, one.neg(p), top, g, p, basis.n);
}

// Whether the remainder of the S-polynomial of lines i and j is not zero. The array holds zero, and does so afterwards if the remainder is zero.
fn pair_fails(work: &mut [u16], basis: &StoredBasis, i: usize, j: usize) -> bool
    requires { PairableOn basis.now work.old × (i < length basis.now.lines.items) × (j < length basis.now.lines.items) }
    ensures { PairSays basis.now i j work.new result }
{
    let top = lead_lcm(basis, i, j);
    load_pair(work, basis, i, j, top);
    !sweep(work, basis, top)
}

// Whether it is so for line j and an earlier line, tried in rising order.
fn earlier_fails(work: &mut [u16], basis: &StoredBasis, j: usize) -> bool
    requires { PairableOn basis.now work.old × (j < length basis.now.lines.items) }
    ensures { EarlierSays basis.now j work.new result }
{
    for i in 0..j {
        if pair_fails(work, basis, i, j) {
            return true;
        }
    }
    false
}

// The number of the first line for which it is so with an earlier line.
pub fn first_failing(work: &mut [u16], basis: &StoredBasis) -> Option<usize>
    requires { Pairable basis.now × (space ≤ length work.old) }
    ensures { FirstFailing basis.now result }
{
    work.fill(0);
    for j in 0..basis.lines.len() {
        if earlier_fails(work, basis, j) {
            return Some(j + 2);
        }
    }
    None
}
