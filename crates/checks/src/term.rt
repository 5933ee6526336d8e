// The checks of a term: 6, 7, and 9 or 8, with 10 before them.
ghost use Rattle.std.specs.Prelude.{◌≡◌, true, ◌↔◌, ◌+◌, ◌≤◌, take};
ghost use Rattle.lists.specs.Lists.{Each};
ghost use Rattle.monomial.specs.Sizes.{most_exponent};
ghost use Rattle.monomial.specs.Represented.{row, monomial};
ghost use Rattle.answer.specs.Outcomes.{pass};
ghost use Rattle.answer.specs.Verdicts.{outcome};
ghost use Rattle.lines.specs.Terms.{Term, as_row};
ghost use Rattle.checks.specs.Checks.{check_term, check_first, check_next};

use answer::{Check, Refusal};
use lines::sizes::MAX_TERMS;
use monomial::count::Variables;
use monomial::{Exponent, MAX_EXPONENT, MAX_VARIABLES, Monomial};
use std::cmp::Ordering;
use tabtext::terms::RawTerm;

// Whether no exponent is over 32.
fn small_exponents(exponents: [u32; MAX_VARIABLES], n: Variables) -> bool
    ensures { (result ≡ true) ↔ Each (λ e. e ≤ most_exponent) (take n exponents) }
{
    exponents[..n.count()]
        .iter()
        .all(|&e| e <= MAX_EXPONENT as u32)
}

// The monomial with the exponents of a row.
pub fn monomial_of(exponents: [u32; MAX_VARIABLES], n: Variables) -> Monomial
    requires { Each (λ e. e ≤ most_exponent) (take n exponents) }
    ensures { result ≡ monomial n (as_row n (take n exponents)) }
{
    let mut m = Monomial::one();
    for i in 0..n.count() {
        m.e[i] = Exponent(exponents[i] as u8);
    }
    m
}

// A term: 6, 7.
fn check_term(term: RawTerm, p: u16, n: Variables) -> Check
    ensures { check_term p (term.coefficient, take n term.row) pass (outcome result) }
{
    let coefficient = term.coefficient;
    if coefficient < 1 || (p as u32) <= coefficient {
        return Err(Refusal::BadCoefficient);
    }
    if !small_exponents(term.row, n) {
        return Err(Refusal::ExponentTooLarge);
    }
    Ok(())
}

// The first term of a line: 6, 7, 9.
pub fn check_first(term: RawTerm, p: u16, n: Variables) -> Check
    ensures { check_first p (term.coefficient, take n term.row) pass (outcome result) }
{
    check_term(term, p, n)?;
    if term.coefficient != 1 {
        return Err(Refusal::NotMonic);
    }
    Ok(())
}

// The term after the first j, of which the last has the monomial `before`: 10, 6, 7, 8.
pub fn check_next(term: RawTerm, j: usize, before: Monomial, p: u16, n: Variables) -> Check
    ensures { (b : Term) → as_row n b.1 ≡ row n before → check_next p n (j + 1) b (term.coefficient, take n term.row) pass (outcome result) }
{
    if MAX_TERMS <= j {
        return Err(Refusal::TooManyLinesOrTerms);
    }
    check_term(term, p, n)?;
    match monomial_of(term.row, n).compare_grevlex(before, n) {
        Ordering::Less => Ok(()),
        _ => Err(Refusal::TermsNotFalling),
    }
}
