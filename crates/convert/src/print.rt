// The output for a lex basis, printed to a sink, and its width.
//
// The contract of each printer says what the sink has afterwards, and how many bytes that are at most.
//
//   print_lines      the poly lines
//   print_output     the whole text: the basis line, the poly lines, the stairs line, the runs line, the end line
//   output_width     the number of its bytes
ghost use Rattle.std.specs.Prelude.{◌≡◌, ◌+◌, ◌*◌, ◌≤◌, ◌<◌, length};
ghost use Rattle.lines.specs.Sizes.{most_terms};
ghost use Rattle.tabtext.specs.Text.{text};
ghost use Rattle.convert.specs.LexText.{generator_lines, ToPrint, written_of};

use fglm::lex_basis::LexBasis;
use lines::line::Generator;
use monomial::count::Variables;
use tabtext::print::{print_count, print_generator, print_header, print_standard};
use tabtext::sink::{Count, Sink};

fn print_lines<S: Sink>(sink: &mut S, lines: &[Generator], n: Variables)
    requires { S.takes sink.old (length (text (generator_lines n lines.now))) }
    ensures printed { sink.new ≡ S.after sink.old (text (generator_lines n lines.now)) }
    ensures short { length (text (generator_lines n lines.now)) ≤ (5 + 31 * most_terms) * length lines.now }
{
    for j in 0..lines.len() {
        print_generator(&mut *sink, &lines[j], n);
    }
}

pub fn print_output<S: Sink>(sink: &mut S, lex: &LexBasis, p: u16, n: Variables)
    requires { ToPrint p n lex.now × ((h : 1 < p) → S.takes sink.old (length (written_of p h n lex.now))) }
    ensures printed { (h : 1 < p) → sink.new ≡ S.after sink.old (written_of p h n lex.now) }
    ensures short { let b = lex.now in
        (h : 1 < p) → length (written_of p h n b) ≤ 22 + (5 + 31 * most_terms) * length b.lines.items + (7 + 25 * length b.standard.items) + (11 + 11) }
{
    print_header(&mut *sink, b"lex", p, n);
    print_lines(&mut *sink, &lex.lines, n);
    print_standard(&mut *sink, &lex.standard, n);
    print_count(&mut *sink, b"runs", lex.standard.len() as u32);
    print_count(&mut *sink, b"end", lex.lines.len() as u32);
}

// The output is short, so that the count of its bytes stays below its largest number.
pub fn output_width(lex: &LexBasis, p: u16, n: Variables) -> usize
    requires { ToPrint p n lex.now }
    ensures { (h : 1 < p) → result ≡ length (written_of p h n lex.now) }
{
    let mut count = Count { bytes: 0 };
    print_output(&mut count, lex, p, n);
    count.bytes
}
