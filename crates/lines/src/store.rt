// A line is stored at a place of a list, as its number of terms, their coefficients and their monomials.
//
//   put               a value is stored at a place of a list
//   term_at           a term of a line
//   put_term          it is stored
//   put_coefficient   its coefficient is stored
//   put_monomial      its monomial is stored
//   put_line          a line
ghost use Rattle.std.specs.Prelude.{◌≡◌, ◌<◌};
ghost use Rattle.lines.specs.Sizes.{most_lines};
ghost use Rattle.lines.specs.Stored.{put_at, stored_term, put_term, LinePut};

use crate::inline_list::Blank;
use crate::line::{Generator, LineTerm};
use crate::sizes::MAX_LINES;
use arrayvec::ArrayVec;
use monomial::Monomial;
use residue::Residue;

// x stands at place k of a list, in place of what stood there; behind all, if nothing did.
pub fn put<T: Copy, const CAP: usize>(list: &mut ArrayVec<T, CAP>, k: usize, x: T)
    requires { k < CAP }
    ensures { list.new.items ≡ put_at list.old.items k x }
{
    if k < list.len() {
        list[k] = x;
    } else {
        list.push(x);
    }
}

// Term j of line k; the blank, if there is none.
fn term_at(lines: &[Generator], k: usize, j: usize) -> LineTerm
    ensures { result ≡ stored_term lines.now k j }
{
    if k < lines.len() && j < lines[k].len() {
        lines[k][j]
    } else {
        LineTerm::blank()
    }
}

// It is t, if there is one.
fn put_term(lines: &mut ArrayVec<Generator, MAX_LINES>, k: usize, j: usize, t: LineTerm)
    ensures { lines.new.items ≡ put_term lines.old.items k j t }
{
    if k < lines.len() {
        lines[k].set(j, t);
    }
}

// Its coefficient is c.
fn put_coefficient(lines: &mut ArrayVec<Generator, MAX_LINES>, k: usize, j: usize, c: Residue)
    ensures { let t = stored_term lines.old.items k j in
        lines.new.items ≡ put_term lines.old.items k j (record { coefficient = c; monomial = t.monomial }) }
{
    let t = term_at(&lines[..], k, j);
    put_term(
        lines,
        k,
        j,
        LineTerm {
            coefficient: c,
            monomial: t.monomial,
        },
    );
}

// Its monomial is m.
fn put_monomial(lines: &mut ArrayVec<Generator, MAX_LINES>, k: usize, j: usize, m: Monomial)
    ensures { let t = stored_term lines.old.items k j in
        lines.new.items ≡ put_term lines.old.items k j (record { coefficient = t.coefficient; monomial = m }) }
{
    let t = term_at(&lines[..], k, j);
    put_term(
        lines,
        k,
        j,
        LineTerm {
            coefficient: t.coefficient,
            monomial: m,
        },
    );
}

// Every line of a basis is stored here: line k, in place of what stood there; behind all, if nothing did.
pub fn put_line(lines: &mut ArrayVec<Generator, MAX_LINES>, k: usize, g: Generator)
    requires { k < most_lines }
    ensures { LinePut lines.old.items k g lines.new.items }
{
    let at = k.min(lines.len());
    put(&mut *lines, at, Generator::blanks(g.len()));
    for j in 0..g.len() {
        let t = g[j];
        put_coefficient(&mut *lines, at, j, t.coefficient);
        put_monomial(&mut *lines, at, j, t.monomial);
    }
}
