// Bytes, rows of exponents and terms, read at a place of a text. Each reader gives the place after what it read, and not the rest of the text: a record names its parts by places.
ghost use Rattle.std.specs.Prelude.{◌≡◌, ℕ, ◌+◌, ◌<◌, ◌≤◌, true, Some, length, drop};
ghost use Rattle.tabtext.specs.Readers.{starts_with, read_byte, read_field, read_exponent, read_row, read_term, read_terms, read_rows};
ghost use Rattle.tabtext.specs.Answers.{NumberSays, NextSays, RowSays, TermSays, FieldsSay};

use crate::number::read_number;
use monomial::MAX_VARIABLES;
use monomial::count::Variables;

// A term as it was read: its coefficient, and a row of which the first n numbers were read.
#[derive(Clone, Copy)]
pub struct RawTerm {
    pub coefficient: u32,
    pub row: [u32; MAX_VARIABLES],
}

// Whether a byte stands at a place.
pub fn byte_is(text: &[u8], i: usize, byte: u8) -> bool
    ensures { result ≡ starts_with byte (drop i text.now) }
{
    text.get(i).map_or(false, |&b| b == byte)
}

// A byte.
pub fn read_byte(text: &[u8], at: usize, byte: u8) -> Option<usize>
    ensures { NextSays (read_byte byte) text.now at result }
{
    if byte_is(text, at, byte) {
        Some(at + 1)
    } else {
        None
    }
}

// A separator and a number.
#[inline]
pub fn read_field(text: &[u8], at: usize, separator: u8) -> Option<(u32, usize)>
    ensures { NumberSays (read_field separator) text.now at result }
{
    let i = read_byte(text, at, separator)?;
    read_number(text, i)
}

// An exponent that stands after j others: the first one alone, a later one after a dot.
#[inline]
fn read_exponent(text: &[u8], at: usize, j: usize) -> Option<(u32, usize)>
    ensures { NumberSays (read_exponent j) text.now at result }
{
    if j == 0 {
        read_number(text, at)
    } else {
        read_field(text, at, b'.')
    }
}

// A separator and n exponents: a row of which the first n numbers were read.
pub fn read_exponents(
    text: &[u8],
    at: usize,
    n: Variables,
    separator: u8,
) -> Option<([u32; MAX_VARIABLES], usize)>
    ensures { RowSays n separator text.now at result }
{
    let mut row = [0; MAX_VARIABLES];
    let mut i = read_byte(text, at, separator)?;
    for j in 0..n.count() {
        let (v, next) = read_exponent(text, i, j)?;
        row[j] = v;
        i = next;
    }
    Some((row, i))
}

// A coefficient, and n exponents after a colon.
pub fn read_term(text: &[u8], at: usize, n: Variables) -> Option<(RawTerm, usize)>
    ensures { TermSays n text.now at result }
{
    let (coefficient, i) = read_number(text, at)?;
    let (row, next) = read_exponents(text, i, n, b':')?;
    Some((RawTerm { coefficient, row }, next))
}

// Fields, a tab before each, up to LF. The closure reads the field at a place, with its tab.
fn read_fields<F: Fn(usize) -> Option<usize>>(text: &[u8], at: usize, field: F) -> Option<usize>
    requires reads { (i : ℕ) → starts_with 9 (drop i text.now) ≡ true → F.pre field i }
    requires advances { (i j : ℕ) → F.post field i (Some j) → (i < j) × (j ≤ length text.now) }
    ensures { FieldsSay (λ i r. F.post field i r) text.now at result }
{
    let mut i = at;
    while byte_is(text, i, b'\t') {
        i = field(i)?;
    }
    read_byte(text, i, b'\n')
}

// Terms, a tab before each, up to LF.
pub fn read_terms(text: &[u8], at: usize, n: Variables) -> Option<usize>
    ensures { NextSays (read_terms n) text.now at result }
{
    let term = |i|
        requires { starts_with 9 (drop i text.now) ≡ true }
        ensures { NextSays (read_term n) text.entry.now (i + 1) result }
    {
        let (_, next) = read_term(text, i + 1, n)?;
        Some(next)
    };
    read_fields(text, at, term)
}

// Rows of n exponents, a tab before each, up to LF.
pub fn read_rows(text: &[u8], at: usize, n: Variables) -> Option<usize>
    ensures { NextSays (read_rows n) text.now at result }
{
    let row = |i|
        ensures { NextSays (read_row n 9) text.entry.now i result }
    {
        let (_, next) = read_exponents(text, i, n, b'\t')?;
        Some(next)
    };
    read_fields(text, at, row)
}
