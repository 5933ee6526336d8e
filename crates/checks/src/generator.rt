// A poly line: its terms in turn, each checked and kept.
ghost use Rattle.std.specs.Prelude.{◌≡◌, List, ◌≤◌, length, drop};
ghost use Rattle.monomial.specs.Represented.{row};
ghost use Rattle.lines.specs.Terms.{Term, as_row};
ghost use Rattle.lines.specs.Bases.{Padded};
ghost use Rattle.checks.specs.Answers.{Ahead, LaterSays, GeneratorSays};

use crate::term::{check_first, check_next, monomial_of};
use answer::Refusal;
use lines::line::{Generator, LineTerm};
use lines::sizes::MAX_LINES;
use monomial::count::Variables;
use residue::Residue;
use tabtext::terms::{byte_is, read_term};

// The terms of a line and those that follow them in the text, if these pass; the last of the line has the monomial m.
fn read_later(
    text: &[u8],
    start: usize,
    p: u16,
    n: Variables,
    first: LineTerm,
) -> Result<Generator, Refusal>
    requires { Padded n first.monomial }
    ensures { (left : List Term) (before : Term) → Ahead n (drop start text.now) left → as_row n before.1 ≡ row n first.monomial
        → LaterSays p n first before left result }
{
    let mut g = Generator::new();
    g.push(first);
    let mut last = first.monomial;
    let mut at = start;
    while byte_is(text, at, b'\t') {
        let Some((term, next)) = read_term(text, at + 1, n) else {
            return Err(Refusal::BadLine);
        };
        check_next(term, g.len(), last, p, n)?;
        last = monomial_of(term.row, n);
        g.push(LineTerm {
            coefficient: Residue::of(term.coefficient, p),
            monomial: last,
        });
        at = next;
    }
    Ok(g)
}

// The k-th poly line, whose terms stand from `start` on.
pub fn check_generator(
    text: &[u8],
    start: usize,
    p: u16,
    n: Variables,
    k: usize,
) -> Result<Generator, Refusal>
    requires { start ≤ length text.now }
    ensures { (terms : List Term) → Ahead n (drop start text.now) terms → 1 ≤ length terms
        → GeneratorSays p n k terms result }
{
    if MAX_LINES < k {
        return Err(Refusal::TooManyLinesOrTerms);
    }
    let Some((term, next)) = read_term(text, start + 1, n) else {
        return Err(Refusal::BadLine);
    };
    check_first(term, p, n)?;
    let first = LineTerm {
        coefficient: Residue::of(term.coefficient, p),
        monomial: monomial_of(term.row, n),
    };
    read_later(text, next, p, n, first)
}
