// The rows of the products x_i·B_s, filled in rising grevlex order of these products, B the irreducible monomials.
ghost use Rattle.std.specs.Prelude.{◌≡◌, ℕ, true, ◌↔◌, ◌≤◌, ◌<◌, List, length, get_or};
ghost use Rattle.monomial.specs.Sizes.{most_variables};
ghost use Rattle.monomial.specs.Rows.{exponent};
ghost use Rattle.monomial.specs.Represented.{row};
ghost use Rattle.monomial.specs.Ranks.{above_ranks, RisingRanks, Bounded};
ghost use Rattle.monomial.specs.declared.Monomial.{Monomial};
ghost use Rattle.lines.specs.Sizes.{most_standard};
ghost use Rattle.staircase.specs.Sound.{SoundLine};
ghost use Rattle.coordinates.specs.Vectors.{Below};
ghost use Rattle.multiplication.specs.Rows.{NoRows, AllBelow};
ghost use Rattle.multiplication.specs.Rules.{PassesBy, SomePasses, Unlisted, Through, ProductRow, MadeRow};
ghost use Rattle.multiplication.specs.RankedLists.{RankedList, ProductAt, ProductRank, FirstRanks};
ghost use Rattle.multiplication.specs.Tails.{Subtracted, TailRow, DistinctRanks};
ghost use Rattle.multiplication.specs.Filling.{Fillable, FilledRows};

use crate::rows::{Tables, times_variable};
use coordinates::Coordinates;
use lines::StoredBasis;
use lines::line::LineTerm;
use lines::sizes::{MAX_LINES, MAX_STANDARD};
use monomial::count::Variables;
use monomial::rank::{next_place, place_after, put_variable_ranks, rank, rank_place};
use monomial::{Exponent, MAX_VARIABLES, Monomial};
use residue::Residue;
use residue::field::PrimeField;
use staircase::leads::leads_of;
use staircase::ranks::ranks_of;

// c is subtracted at a place, if there is one.
fn subtract_at(mut r: Coordinates, c: Residue, at: Option<usize>, field: PrimeField) -> Coordinates
    requires { Below field.p r × (c.0 < field.p) × ((k : ℕ) → at ≡ Some k → k < most_standard) }
    ensures { Subtracted field.p r c.0 at result }
{
    if let Some(k) = at {
        let a = r.c[k];
        r.c[k] = a.sub(c, field.p);
    }
    r
}

// Minus the tail of a line: its terms but the first, from the last on.
fn tail_row(ranks: &[u64], g: &[LineTerm], n: Variables, field: PrimeField) -> Coordinates
    requires { SoundLine field.p n g.now × (length ranks.now ≤ most_standard) }
    ensures { (l : List Monomial) → DistinctRanks n l ranks.now → TailRow field.p n g.now l result }
{
    let mut r = Coordinates::zero();
    for k in (1..g.len()).rev() {
        let t = g[k];
        let at = rank_place(ranks, rank(t.monomial, n));
        r = subtract_at(r, t.coefficient, at, field);
    }
    r
}

// Whether an exponent is not 0, and w less the rank x is no rank of the list.
fn is_detour(ranks: &[u64], e: Exponent, wanted: u64, x: u64) -> bool
    requires { (0 < e.0 → x ≤ wanted) × RisingRanks ranks.now (length ranks.now) }
    ensures { (result ≡ true) ↔ PassesBy ranks.now e.0 wanted x }
{
    e.0 != 0 && place_after(ranks, 0, wanted - x).is_none()
}

// The first x_j that divides m with w less its rank no rank of the list, of which there is one.
fn variable_through(
    ranks: &[u64],
    variables: &[u64],
    m: Monomial,
    wanted: u64,
    n: Variables,
) -> usize
    requires { (n ≤ length variables.now) × RisingRanks ranks.now (length ranks.now)
        × SomePasses n (row n m) ranks.now variables.now wanted }
    ensures { (result < n) × PassesBy ranks.now (exponent n (row n m) result) wanted (get_or variables.now result 0) }
{
    for j in 0..n.count() {
        let e = m.e[j];
        if is_detour(ranks, e, wanted, variables[j]) {
            return j;
        }
    }
    unreachable!()
}

// The row of x_i·B_s of rank w, which is neither listed nor a leading monomial: with B_s = x_j·c and x_i·c reducible it is x_j times the row of x_i·c.
fn product_row(
    tables: &Tables,
    ranks: &[u64],
    variables: &[u64],
    irreducibles: &[Monomial],
    wanted: u64,
    i: usize,
    place: usize,
    n: Variables,
    field: PrimeField,
) -> Coordinates
    requires { let l = irreducibles.now in
        AllBelow field.p tables.now × RankedList n l ranks.now variables.now × ProductAt n l i place wanted × Through n l i place }
    ensures { ProductRow field.p n irreducibles.now tables.now i place result }
{
    let m = irreducibles[place];
    let j = variable_through(ranks, variables, m, wanted, n);
    let at = rank_place(ranks, ranks[place] - variables[j]).unwrap();
    times_variable(tables, j, tables.rows[i][at], irreducibles.len(), field)
}

// The row of x_i·B_s of rank w, which is no leading monomial: a unit row if it is listed, and otherwise a product.
fn row_for(
    tables: &Tables,
    ranks: &[u64],
    variables: &[u64],
    irreducibles: &[Monomial],
    wanted: u64,
    i: usize,
    place: usize,
    n: Variables,
    field: PrimeField,
) -> Coordinates
    requires { let l = irreducibles.now in AllBelow field.p tables.now × RankedList n l ranks.now variables.now × ProductAt n l i place wanted
        × (Unlisted n l i place → Through n l i place) }
    ensures { MadeRow field.p n irreducibles.now tables.now i place result }
{
    if let Some(k) = place_after(ranks, place + 1, wanted) {
        return Coordinates::unit(k);
    }
    product_row(
        tables,
        ranks,
        variables,
        irreducibles,
        wanted,
        i,
        place,
        n,
        field,
    )
}

// For each variable x_i the number of its rows that are filled.
#[derive(Clone, Copy)]
pub struct Cursors {
    pub at: [usize; MAX_VARIABLES],
}

// The rank of x_i·B_s, where x is that of x_i, or 0 where the list has no B_s: in the array of which `fill` takes the least rank, 0, below every
// rank, says that there is no product.
fn product_rank(ranks: &[u64], x: u64, place: usize) -> u64
    requires { Bounded ranks.now (length ranks.now) × (x < above_ranks) }
    ensures { ProductRank ranks.now x place result }
{
    ranks.get(place).map_or(0, |r| x + *r)
}

// The ranks of the products x_i·B_0.
fn put_first_ranks(next: &mut [u64], ranks: &[u64], variables: &[u64], n: Variables)
    requires { (length next.old ≡ most_variables) × (n ≤ length variables.now) × Bounded variables.now n × Bounded ranks.now (length ranks.now) }
    ensures { FirstRanks ranks.now variables.now n next.new }
{
    for i in 0..n.count() {
        next[i] = product_rank(ranks, variables[i], 0);
    }
}

// All rows, in rising order of the products: the next products of the n variables are merged by their ranks.
// Ranks stand in lists of their own, beside the monomials and the cursors: a rank is sought among numbers side by side, and `next_place` reads those of the next products as a slice.
pub fn fill(tables: &mut Tables, basis: &StoredBasis, irreducibles: &[Monomial])
    requires { NoRows tables.old × Fillable basis.now irreducibles.now }
    ensures { FilledRows basis.now irreducibles.now tables.new }
{
    let mut c = Cursors {
        at: [0; MAX_VARIABLES],
    };
    let n = basis.n;
    let field = PrimeField::new(basis.p);
    let ranks = ranks_of::<MAX_STANDARD>(irreducibles, n);
    let leads = leads_of(basis);
    let lead_ranks = ranks_of::<MAX_LINES>(&leads, n);
    let mut variables: [u64; MAX_VARIABLES] = [0; MAX_VARIABLES];
    put_variable_ranks(&mut variables, n);
    let mut next: [u64; MAX_VARIABLES] = [0; MAX_VARIABLES];
    put_first_ranks(&mut next, &ranks, &variables, n);
    while let Some(i) = next_place(&next[..n.count()], 1) {
        let s = c.at[i];
        let w = next[i];
        let row = match rank_place(&lead_ranks, w) {
            Some(k) => {
                let g = &basis.lines[k];
                tail_row(&ranks, g, n, field)
            }
            None => row_for(
                &*tables,
                &ranks,
                &variables,
                irreducibles,
                w,
                i,
                s,
                n,
                field,
            ),
        };
        tables.put(i, s, row);
        c.at[i] = s + 1;
        let x = variables[i];
        next[i] = product_rank(&ranks, x, s + 1);
    }
}
