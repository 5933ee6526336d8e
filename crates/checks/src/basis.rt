// The lines of a text in turn: checks 2 to 11.
ghost use Rattle.std.specs.Prelude.{◌≡◌, ◌≤◌, [], length, drop};
ghost use Rattle.lines.specs.Sizes.{most_lines};
ghost use Rattle.checks.specs.Answers.{EndSays, LineSays, LinesSays, BasisSays};

use crate::generator::check_generator;
use crate::header::check_header;
use answer::{Refusal, Refused, Verdict};
use arrayvec::ArrayVec;
use lines::StoredBasis;
use lines::line::Generator;
use lines::sizes::MAX_LINES;
use lines::store::put_line;
use monomial::count::Variables;
use tabtext::record::{Kind, read_record};

// The end line after k poly lines, after which the text goes on at `next`.
fn check_end(text: &[u8], count: u32, next: usize, k: usize) -> Verdict
    requires { k ≤ most_lines }
    ensures { EndSays k count (drop next text.now) result }
{
    if count as usize != k {
        return Err(Refusal::EndNumberDiffers.at(k + 2));
    }
    if next < text.len() {
        return Err(Refusal::BadLine.at(k + 3));
    }
    Ok(())
}

// The line at a place, after k poly lines: a poly line and the place after it, or none where the end line stands.
fn read_line(
    text: &[u8],
    at: usize,
    p: u16,
    n: Variables,
    k: usize,
) -> Result<Option<(Generator, usize)>, Refused>
    requires { k ≤ most_lines }
    ensures { LineSays p n k text.now at result }
{
    let Some((record, next)) = read_record(text, at, n, k + 2) else {
        return Err(Refusal::BadLine.at(k + 2));
    };
    let kind = record.kind;
    match kind {
        Kind::Generator(span) => {
            let generator = check_generator(text, span.start, p, n, k + 1).map_err(|r| r.at(
                k + 2,
            ))?;
            Ok(Some((generator, next)))
        }
        Kind::End(count) => {
            check_end(text, count, next, k)?;
            Ok(None)
        }
        _ => Err(Refusal::BadLine.at(k + 2)),
    }
}

// The lines after the basis line, which stand from `start` on: those that pass are pushed to a list that is empty.
fn read_lines(
    text: &[u8],
    start: usize,
    p: u16,
    n: Variables,
    lines: &mut ArrayVec<Generator, MAX_LINES>,
) -> Verdict
    requires { lines.old.items ≡ [] }
    ensures { LinesSays p n (drop start text.now) result lines.new }
{
    let mut at = start;
    while let Some((g, next)) = read_line(text, at, p, n, lines.len())? {
        put_line(lines, lines.len(), g);
        at = next;
    }
    Ok(())
}

// The basis that a text holds, or its refusal: checks 2 to 11.
pub fn read_basis(text: &[u8], basis: &mut StoredBasis) -> Verdict
    ensures { BasisSays text.now result basis.new }
{
    let Some((record, next)) = read_record(text, 0, Variables::new(0), 1) else {
        return Err(Refusal::BadLine.at(1));
    };
    let kind = record.kind;
    let Kind::Header(h) = kind else {
        return Err(Refusal::BadLine.at(1));
    };
    check_header(text, h).map_err(|r| r.at(1))?;
    basis.p = h.p as u16;
    basis.n = Variables::new(h.n as usize);
    basis.lines.clear();
    read_lines(text, next, basis.p, basis.n, &mut basis.lines)
}
