// The rows of the products x_i·B_s, and what these rows make of coordinates in the irreducible monomials B.
ghost use Rattle.std.specs.Prelude.{◌≡◌, ◌<◌, ◌≤◌, length, set};
ghost use Rattle.monomial.specs.Sizes.{most_variables};
ghost use Rattle.lines.specs.Sizes.{most_standard};
ghost use Rattle.coordinates.specs.Vectors.{Below};
ghost use Rattle.multiplication.specs.Rows.{NoRows, RowPut, AllBelow, Multiplied};

use coordinates::Coordinates;
use coordinates::vectors::{add_multiple, cut};
use lines::sizes::MAX_STANDARD;
use monomial::MAX_VARIABLES;
use residue::field::PrimeField;

// All rows: that of x_i·B_s stands at place s of the rows of x_i.
#[derive(Drop)]
pub struct Tables {
    pub rows: [[Coordinates; MAX_STANDARD]; MAX_VARIABLES],
}

// A row is stored at a place of the rows of one variable, of which there are most_standard.
fn put_at(rows: &mut [Coordinates; MAX_STANDARD], s: usize, row: Coordinates)
    requires { s < most_standard }
    ensures { (length rows.old ≡ most_standard) × (rows.new ≡ set rows.old s row) }
{
    rows[s] = row;
}

impl Tables {
    // All rows zero.
    pub fn none() -> Tables
        ensures { NoRows result }
    {
        let zero = Coordinates::zero();
        Tables {
            rows: [[zero; MAX_STANDARD]; MAX_VARIABLES],
        }
    }

    // The row of x_i·B_s is stored.
    pub fn put(&mut self, i: usize, s: usize, row: Coordinates)
        requires { (i < most_variables) × (s < most_standard) }
        ensures { RowPut self.old i s row self.new }
    {
        put_at(&mut self.rows[i], s, row);
    }
}

// The coordinates of x_i times what has the coordinates w: Σ w(r)·row(i, r) over r < d. The number d is that of a list which the caller holds and the tables do not,
// so that it is at most most_standard is asked here and in `commute`.
pub fn times_variable(
    tables: &Tables,
    i: usize,
    vector: Coordinates,
    count: usize,
    field: PrimeField,
) -> Coordinates
    requires { AllBelow field.p tables.now × (i < most_variables) × (count ≤ most_standard) × Below field.p vector }
    ensures { Multiplied field.p tables.now i vector count result }
{
    let mut sum = Coordinates::zero();
    for r in 0..count {
        let c = vector.c[r];
        if c.0 != 0 {
            sum = add_multiple(sum, c, tables.rows[i][r], field);
        }
    }
    cut(sum, count)
}
