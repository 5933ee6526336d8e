// Values of the code, printed as lines to a sink.
//
// The contract of each says what the sink has afterwards, and how many bytes that are at most. A number has at most 5
// digits: this bounds the width of a poly line and of a stairs line.
//
//   print_after                a separator and a number
//   exponent_at                the exponent of a variable, as a number
//   print_exponents            the exponents of a monomial
//   print_term                 a coefficient and a monomial
//   print_fields               a word and a field for each element, as a line
//   print_generator            a poly line
//   print_standard             a stairs line
//   print_header               a basis line
//   print_count                a runs line or an end line
ghost use Rattle.std.specs.Prelude.{◌≡◌, ◌∷◌, ℕ, ◌+◌, ◌*◌, ◌≤◌, ◌<◌, length, get_or};
ghost use Rattle.monomial.specs.Sizes.{most_variables};
ghost use Rattle.lines.specs.LineTerms.{exponents_of};
ghost use Rattle.tabtext.specs.Text.{Number, header, decimal, dotted, term};
ghost use Rattle.tabtext.specs.Printed.{generator_line, standard_line, printed, count_line, fields_line, Shown, PrintsFields};

use crate::sink::Sink;
use lines::line::LineTerm;
use monomial::Monomial;
use monomial::count::Variables;
use residue::Residue;

// A separator, and the number v.
fn print_after<S: Sink>(sink: &mut S, separator: u8, v: u32)
    requires { S.takes sink.old (length (separator ∷ decimal v)) }
    ensures { sink.new ≡ S.after sink.old (separator ∷ decimal v) }
{
    sink.put(separator);
    sink.put_number(v);
}

// The exponent of variable i, counted from 0.
fn exponent_at(m: Monomial, i: usize) -> u32
    requires { i < most_variables }
    ensures { ((n : ℕ) → i < n → result ≡ get_or (exponents_of n m) i 0) × Number result }
{
    u32::from(m.exponent(i).0)
}

pub fn print_exponents<S: Sink>(sink: &mut S, m: Monomial, n: Variables)
    requires { S.takes sink.old (length (dotted (exponents_of n m))) }
    ensures printed { sink.new ≡ S.after sink.old (dotted (exponents_of n m)) }
    ensures short { length (dotted (exponents_of n m)) ≤ 24 }
{
    if n.count() == 0 {
        return;
    }
    sink.put_number(exponent_at(m, 0));
    for j in 1..n.count() {
        print_after(&mut *sink, b'.', exponent_at(m, j));
    }
}

pub fn print_term<S: Sink>(sink: &mut S, c: Residue, m: Monomial, n: Variables)
    requires { S.takes sink.old (length (term (c.0, exponents_of n m))) }
    ensures printed { sink.new ≡ S.after sink.old (term (c.0, exponents_of n m)) }
    ensures short { length (term (c.0, exponents_of n m)) ≤ 30 }
{
    sink.put_number(c.0 as u32);
    sink.put(b':');
    print_exponents(&mut *sink, m, n);
}

// A word, and for each element a tab and its field, which the closure prints; then LF.
fn print_fields<S: Sink, T, F: Fn(&mut S, &T)>(sink: &mut S, word: &[u8], items: &[T], field: F)
    requires { (f : Shown T) × PrintsFields S.takes S.after (λ s x. F.pre field s x) (λ s x r. F.post field s x tt r) f sink.old word.now items.now }
    ensures { (f : Shown T) → PrintsFields S.takes S.after (λ s x. F.pre field s x) (λ s x r. F.post field s x tt r) f sink.old word.now items.now
        → let line = fields_line f.bytes word.now items.now in
        (sink.new ≡ S.after sink.old line) × (length line ≤ length word.now + (f.most + 1) * length items.now + 1) }
{
    sink.put_bytes(word);
    for j in 0..items.len() {
        let x = &items[j];
        sink.put(b'\t');
        field(&mut *sink, x);
    }
    sink.put(b'\n');
}

pub fn print_generator<S: Sink>(sink: &mut S, g: &[LineTerm], n: Variables)
    requires { S.takes sink.old (length (printed (generator_line n g.now))) }
    ensures printed { sink.new ≡ S.after sink.old (printed (generator_line n g.now)) }
    ensures short { length (printed (generator_line n g.now)) ≤ 5 + 31 * length g.now }
{
    let field = |s: &mut S, t: &LineTerm|
        requires { S.takes s.old (length (term (t.now.coefficient.0, exponents_of n t.now.monomial))) }
        ensures printed { s.new ≡ S.after s.old (term (t.now.coefficient.0, exponents_of n t.now.monomial)) }
        ensures short { length (term (t.now.coefficient.0, exponents_of n t.now.monomial)) ≤ 30 }
    {
        print_term(s, t.coefficient, t.monomial, n);
    };
    print_fields(sink, b"poly", g, field);
}

pub fn print_standard<S: Sink>(sink: &mut S, monomials: &[Monomial], n: Variables)
    requires { S.takes sink.old (length (printed (standard_line n monomials.now))) }
    ensures printed { sink.new ≡ S.after sink.old (printed (standard_line n monomials.now)) }
    ensures short { length (printed (standard_line n monomials.now)) ≤ 7 + 25 * length monomials.now }
{
    let field = |s: &mut S, m: &Monomial|
        requires { S.takes s.old (length (dotted (exponents_of n m.now))) }
        ensures printed { s.new ≡ S.after s.old (dotted (exponents_of n m.now)) }
        ensures short { length (dotted (exponents_of n m.now)) ≤ 24 }
    {
        print_exponents(s, *m, n);
    };
    print_fields(sink, b"stairs", monomials, field);
}

pub fn print_header<S: Sink>(sink: &mut S, word: &[u8], p: u16, n: Variables)
    requires { S.takes sink.old (length (printed (header word.now p n))) }
    ensures printed { sink.new ≡ S.after sink.old (printed (header word.now p n)) }
    ensures short { length (printed (header word.now p n)) ≤ length word.now + 19 }
{
    sink.put_bytes(b"basis\t");
    sink.put_bytes(word);
    print_after(&mut *sink, b'\t', p as u32);
    print_after(&mut *sink, b'\t', n.count() as u32);
    sink.put(b'\n');
}

pub fn print_count<S: Sink>(sink: &mut S, word: &[u8], v: u32)
    requires { S.takes sink.old (length (count_line word.now v)) }
    ensures printed { sink.new ≡ S.after sink.old (count_line word.now v) }
    ensures short { Number v → length (count_line word.now v) ≤ length word.now + 7 }
{
    sink.put_bytes(word);
    print_after(&mut *sink, b'\t', v);
    sink.put(b'\n');
}
