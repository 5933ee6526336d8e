// Checks 12 to 15, in their order, on a basis that passed 2 to 11.
//
//   text    checks 2 to 15 of a text
#![tactic(auto)]

pub mod text;

ghost use Rattle.std.specs.Prelude.{Some, None};
ghost use Rattle.staircase.specs.Sound.{Sound};
ghost use Rattle.multiplication.specs.Rows.{NoRows};
ghost use Rattle.division.specs.PairRemainders.{Pairable, FirstFailing};
ghost use Rattle.acceptance.specs.Answers.{PassedTo13, WholeSays};

use answer::{Refusal, Refused};
use division::grevlex::SPACE;
use division::pairs::first_failing;
use lines::StoredBasis;
use monomial::Monomial;
use multiplication::criterion::is_groebner;
use multiplication::rows::Tables;
use staircase::divided::first_divided;
use staircase::irreducible::{Irreducibles, list_irreducibles};
use staircase::leads::leads_of;
use staircase::sort::by_grevlex;
use staircase::zero_dimensional::zero_dimensional;

// The line that 15 names where it names one, by division on an array of its own.
fn failing_line(basis: &StoredBasis) -> usize
    requires { Pairable basis.now × ¬ FirstFailing basis.now None }
    ensures { FirstFailing basis.now (Some result) }
{
    let mut work = [0; SPACE];
    first_failing(&mut work, basis).unwrap()
}

// 14 and 15, after 12 and 13: the irreducible monomials, in rising grevlex order.
fn check_irreducibles(
    tables: &mut Tables,
    basis: &StoredBasis,
    leads: &[Monomial],
) -> Result<Irreducibles, Refused>
    requires { NoRows tables.old × PassedTo13 leads.now basis.now }
    ensures { WholeSays basis.now result tables.new }
{
    let l = list_irreducibles(leads, basis.n).ok_or(Refusal::TooManyStandardMonomials.at(0))?;
    let s = by_grevlex(&l, basis.n);
    if !is_groebner(&mut *tables, basis, &s) {
        let line = failing_line(basis);
        return Err(Refusal::NotGroebner.at(line));
    }
    Ok(s)
}

// 12 to 15: the irreducible monomials, in rising grevlex order. If the basis passes, its multiplication rows are left in the lent tables.
pub fn check_whole(tables: &mut Tables, basis: &StoredBasis) -> Result<Irreducibles, Refused>
    requires { NoRows tables.old × Sound basis.now }
    ensures { WholeSays basis.now result tables.new }
{
    let leads = leads_of(basis);
    if let Some(line) = first_divided(basis, &leads) {
        return Err(Refusal::NotReduced.at(line));
    }
    if !zero_dimensional(&leads, basis.n) {
        return Err(Refusal::NotZeroDimensional.at(0));
    }
    check_irreducibles(&mut *tables, basis, &leads)
}
