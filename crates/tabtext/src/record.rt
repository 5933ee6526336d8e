// The record of a line: its number and one of five line kinds (document 01, "The tab text").
ghost use Rattle.std.specs.Prelude.{◌≡◌, ◌<◌, ◌≤◌, true, length, drop};
ghost use Rattle.tabtext.specs.Text.{bytes};
ghost use Rattle.tabtext.specs.Readers.{letter, read_order, read_last, read_header, read_generator, read_standard, read_line};
ghost use Rattle.tabtext.specs.Answers.{NumberSays, NextSays, WordAt, WordSays, kind_read, read_at};

use crate::terms::{byte_is, read_byte, read_field, read_rows, read_terms};
use monomial::count::Variables;

// The bytes of a text from start up to end.
#[derive(Clone, Copy)]
pub struct Span {
    pub start: usize,
    pub end: usize,
}

// A basis line: the order word, p and n.
#[derive(Clone, Copy)]
pub struct Header {
    pub order: Span,
    pub p: u32,
    pub n: u32,
}

// The five kinds: basis, poly, stairs, runs, end. A span starts after the first word and ends at LF.
#[derive(Clone, Copy)]
pub enum Kind {
    Header(Header),
    Generator(Span),
    Standard(Span),
    Points(u32),
    End(u32),
}

// A line's number and its kind.
#[derive(Clone, Copy)]
pub struct Record {
    pub line: usize,
    pub kind: Kind,
}

// Whether a word stands at a place. Past the end none does but the empty word, which is at every place.
pub fn word_at(text: &[u8], at: usize, word: &[u8]) -> bool
    ensures within { at ≤ length text.now → WordSays word.now text.now at result }
    ensures some { 0 < length word.now → WordSays word.now text.now at result }
    ensures empty { length word.now ≡ 0 → result ≡ true }
{
    text[at.min(text.len())..].starts_with(word)
}

// Whether a letter a to z stands at a place.
fn letter_at(text: &[u8], i: usize) -> bool
    ensures { result ≡ letter (drop i text.now) }
{
    text.get(i).is_some_and(|b| b.is_ascii_lowercase())
}

// An order word: a letter and at most seven more. It gives the place after it.
fn read_order(text: &[u8], at: usize) -> Option<usize>
    ensures { NextSays read_order text.now at result }
{
    if !letter_at(text, at) {
        return None;
    }
    let end = at + 8;
    for i in at + 1..end {
        if !letter_at(text, i) {
            return Some(i);
        }
    }
    Some(end)
}

// The last field of a line: a tab, a number and LF.
fn read_last(text: &[u8], at: usize) -> Option<(u32, usize)>
    ensures { NumberSays read_last text.now at result }
{
    let (v, i) = read_field(text, at, b'\t')?;
    let next = read_byte(text, i, b'\n')?;
    Some((v, next))
}

// A basis line: its kind, and the place after its LF. This reader and the two after it are called where the word of their kind stands.
fn read_header(text: &[u8], at: usize) -> Option<(Kind, usize)>
    requires { WordAt (bytes "basis\t") text.now at }
    ensures { result ≡ kind_read text.now at (read_header (drop at text.now)) }
{
    let start = at + 6;
    let end = read_order(text, start)?;
    let (p, i) = read_field(text, end, b'\t')?;
    let (n, next) = read_last(text, i)?;
    let order = Span { start, end };
    Some((Kind::Header(Header { order, p, n }), next))
}

// A poly line.
fn read_generator(text: &[u8], at: usize, n: Variables) -> Option<(Kind, usize)>
    requires { WordAt (bytes "poly") text.now at }
    ensures { result ≡ kind_read text.now at (read_generator n (drop at text.now)) }
{
    let start = at + 4;
    if !byte_is(text, start, b'\t') {
        return None;
    }
    let next = read_terms(text, start, n)?;
    let end = next - 1;
    Some((Kind::Generator(Span { start, end }), next))
}

// A stairs line.
fn read_standard(text: &[u8], at: usize, n: Variables) -> Option<(Kind, usize)>
    requires { WordAt (bytes "stairs") text.now at }
    ensures { result ≡ kind_read text.now at (read_standard n (drop at text.now)) }
{
    let start = at + 6;
    let next = read_rows(text, start, n)?;
    let end = next - 1;
    Some((Kind::Standard(Span { start, end }), next))
}

// The kind of the line at a place, in n variables. Its first word decides how it is read; a runs line and an end line have a number after it.
fn read_kind(text: &[u8], at: usize, n: Variables) -> Option<(Kind, usize)>
    ensures { result ≡ kind_read text.now at (read_line n (drop at text.now)) }
{
    // A chain and no table of words: the readers differ in what they take and give, and a table would hand out function pointers and be no plainer.
    if word_at(text, at, b"basis\t") {
        read_header(text, at)
    } else if word_at(text, at, b"poly") {
        read_generator(text, at, n)
    } else if word_at(text, at, b"stairs") {
        read_standard(text, at, n)
    } else if word_at(text, at, b"runs") {
        let (points, next) = read_last(text, at + 4)?;
        Some((Kind::Points(points), next))
    } else if word_at(text, at, b"end") {
        let (lines, next) = read_last(text, at + 3)?;
        Some((Kind::End(lines), next))
    } else {
        None
    }
}

// The line at a place, in n variables: its record, with the line's number, and the place after its LF.
pub fn read_record(text: &[u8], at: usize, n: Variables, line: usize) -> Option<(Record, usize)>
    ensures { result ≡ read_at n line text.now at }
{
    let (kind, next) = read_kind(text, at, n)?;
    Some((Record { line, kind }, next))
}
