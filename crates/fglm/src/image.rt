// The row of a monomial, from the rows of the standard monomials found before.
ghost use Rattle.std.specs.Prelude.{◌≤◌, length};
ghost use Rattle.lines.specs.Sizes.{most_standard};
ghost use Rattle.fglm.specs.ImageRows.{OneRow, ImageInput, ImageRow};

use coordinates::Coordinates;
use monomial::Monomial;
use monomial::count::Variables;
use monomial::rank::{rank, rank_place};
use monomial::variable::{first_variable, over_variable};
use multiplication::rows::{Tables, times_variable};
use residue::field::PrimeField;
use staircase::place::place_of;

// The row of 1: zero where 1 is not listed.
fn one_row(irreducibles: &[Monomial], n: Variables) -> Coordinates
    requires { length irreducibles.now ≤ most_standard }
    ensures { OneRow n irreducibles.now result }
{
    match place_of(irreducibles, Monomial::one(), n) {
        Some(k) => Coordinates::unit(k),
        None => Coordinates::zero(),
    }
}

// The row of m: that of 1, or x_i times that of a standard monomial. The image at place s is the row of the standard monomial at place s.
pub fn image_of(
    tables: &Tables,
    images: &[Coordinates],
    ranks: &[u64],
    m: Monomial,
    standard: &[Monomial],
    irreducibles: &[Monomial],
    field: PrimeField,
    n: Variables,
) -> Coordinates
    requires { ImageInput field.p n m tables.now images.now ranks.now standard.now irreducibles.now }
    ensures { ImageRow field.p n m images.now standard.now tables.now irreducibles.now result }
{
    let Some(i) = first_variable(m, n) else {
        return one_row(irreducibles, n);
    };
    prove!(i < n.count());
    let b = over_variable(m, i, n);
    let s = rank_place(&ranks[..standard.len()], rank(b, n)).unwrap();
    times_variable(tables, i, images[s], irreducibles.len(), field)
}
