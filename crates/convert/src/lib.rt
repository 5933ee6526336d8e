// The conversion of a text: the lex basis and its standard monomials, or a refusal.
//
//   convert   the conversion of a text
//   print     the output for a lex basis
#![tactic(auto)]

ghost use Rattle.std.specs.Prelude.{◌<◌};
ghost use Rattle.answer.specs.Finished.{Finished};
ghost use Rattle.convert.specs.LexText.{ToPrint, written_of};
ghost use Rattle.convert.specs.Finished.{PassedBasis, FinishedBasis};
ghost use Rattle.convert.specs.Contract.{Meets};

use crate::print::{output_width, print_output};
use acceptance::text::check_text;
use answer::{Answer, Refusal};
use fglm::enumeration::enumerate;
use fglm::lex_basis::LexBasis;
use lines::StoredBasis;
use monomial::Monomial;
use monomial::count::Variables;
use monomial::order::x1_to_xn;
use multiplication::rows::Tables;
use residue::field::PrimeField;
use residue::reciprocals::Reciprocals;
use tabtext::sink::Front;
use tabtext::sizes::MAX_BYTES;

pub mod print;

// The output, if it has room: first its bytes are counted, then they are written; otherwise nothing is written (document 01, refusal 16).
fn finish(output: &mut [u8], lex: &LexBasis, p: u16, n: Variables) -> Answer
    requires { ToPrint p n lex.now }
    ensures { (h : 1 < p) → Finished (written_of p h n lex.now) output.old output.new result }
{
    let width = output_width(lex, p, n);
    if output.len() < width {
        return Err(Refusal::OutputTooShort.at(0));
    }
    let mut front = Front { out: output, at: 0 };
    print_output(&mut front, lex, p, n);
    Ok(front.at)
}

// The conversion of a basis that passed checks 2 to 15, with its irreducible monomials and multiplication rows; and check 16.
fn convert_basis(
    output: &mut [u8],
    basis: &StoredBasis,
    tables: &Tables,
    irreducibles: &[Monomial],
) -> Answer
    requires { PassedBasis irreducibles.now tables.now basis.now }
    ensures { FinishedBasis basis.now output.old output.new result }
{
    let reciprocals = Reciprocals::new(PrimeField::new(basis.p));
    let mut lex = LexBasis::default();
    enumerate(
        &mut lex,
        tables,
        irreducibles,
        x1_to_xn(),
        reciprocals,
        basis.n,
    );
    finish(&mut *output, &lex, basis.p, basis.n)
}

// The lex basis and its standard monomials, written from the first byte of the output on; or a refusal, and no byte is written.
pub fn convert(input: &[u8], output: &mut [u8]) -> Answer
    ensures { Meets input.now output.old output.new result }
{
    if MAX_BYTES < input.len() {
        return Err(Refusal::InputTooLong.at(0));
    }
    let mut basis = StoredBasis::default();
    let mut tables = Tables::none();
    let irreducibles = check_text(input, &mut basis, &mut tables)?;
    convert_basis(&mut *output, &basis, &tables, &irreducibles)
}
