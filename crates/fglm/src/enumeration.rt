// The FGLM enumeration (document 01, "The walk"): the lex basis of lines that are a Groebner basis in grevlex.
ghost use Rattle.std.specs.Prelude.{take};
ghost use Rattle.fglm.specs.Enumerable.{EnumerationInput, Enumerated};

use crate::elimination::Rows;
use crate::image::image_of;
use crate::lex_basis::LexBasis;
use crate::line::line_of;
use arrayvec::ArrayVec;
use coordinates::Coordinates;
use lines::sizes::MAX_STANDARD;
use lines::store::{put, put_line};
use monomial::Monomial;
use monomial::count::Variables;
use monomial::order::Ranking;
use monomial::rank::rank;
use multiplication::rows::Tables;
use residue::reciprocals::Reciprocals;
use staircase::irreducible::Irreducibles;
use staircase::leads::Leads;
use staircase::next::next;

// Monomials are visited in rising lex order. One that depends on the standard monomials before it makes a line, whose multiples are passed over.
// The lex basis is left in what is lent: a large value that is handed back is copied.
pub fn enumerate(
    lex: &mut LexBasis,
    tables: &Tables,
    irreducibles: &[Monomial],
    ranking: Ranking,
    reciprocals: Reciprocals,
    n: Variables,
)
    requires { EnumerationInput reciprocals n (take n ranking.variables) irreducibles.now tables.now }
    ensures { Enumerated reciprocals n (take n ranking.variables) irreducibles.now tables.now lex.new }
{
    lex.lines.clear();
    // The standard monomials found so far are the first `count` of the list, which is cut to them at the end.
    lex.standard = Irreducibles::blanks(MAX_STANDARD);
    let mut count: usize = 0;
    let field = reciprocals.field;
    // Images, ranks and standard monomials stand in lists beside each other: the ranks are sought as numbers, and the lines and the answer take the monomials alone.
    let mut rows = Rows::none();
    let mut images: ArrayVec<Coordinates, MAX_STANDARD> = ArrayVec::new();
    let mut ranks: ArrayVec<u64, MAX_STANDARD> = ArrayVec::new();
    let mut leads = Leads::new();
    let mut m = Some(Monomial::one());
    while let Some(v) = m {
        let w = image_of(
            tables,
            &images,
            &ranks,
            v,
            &lex.standard[..count],
            irreducibles,
            field,
            n,
        );
        let x = rows.residual(w, field);
        let Some(pivot) = x.found() else {
            put_line(
                &mut lex.lines,
                leads.len(),
                line_of(v, x.dependence(field), &lex.standard[..count], field.p, n),
            );
            leads.push(v);
            m = next(&leads, v, ranking, n);
            continue;
        };
        rows = rows.insert(x.scaled(pivot, reciprocals), field);
        put(&mut images, count, w);
        put(&mut ranks, count, rank(v, n));
        lex.standard.set(count, v);
        count += 1;
        m = next(&leads, v, ranking, n);
    }
    lex.standard.truncate(count);
}
