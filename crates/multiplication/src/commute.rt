// The test of check 15: whether the rows of the products x_i·B_s commute.
ghost use Rattle.std.specs.Prelude.{◌≡◌, true, ◌↔◌, ℕ, ◌<◌, ◌≤◌};
ghost use Rattle.residue.specs.Field.{modulo};
ghost use Rattle.monomial.specs.Sizes.{most_variables};
ghost use Rattle.groebner.specs.MultiplicationRows.{RowsCommute};
ghost use Rattle.lines.specs.Sizes.{most_standard};
ghost use Rattle.multiplication.specs.Rows.{AllBelow, cell_of, CommuteAt};

use crate::rows::{Tables, times_variable};
use coordinates::vectors::same_coordinates;
use monomial::count::Variables;
use residue::field::PrimeField;

// Whether x_i·(x_j·B_s) and x_j·(x_i·B_s) have the same coordinates.
fn commute_at(
    tables: &Tables,
    i: usize,
    j: usize,
    place: usize,
    count: usize,
    field: PrimeField,
) -> bool
    requires { AllBelow field.p tables.now × (i < most_variables) × (j < most_variables) × (count ≤ most_standard) × (place < count) }
    ensures { (h : 1 < field.p) → (result ≡ true) ↔ CommuteAt field.p h tables.now count i j place }
{
    let a = times_variable(tables, i, tables.rows[j][place], count, field);
    let b = times_variable(tables, j, tables.rows[i][place], count, field);
    same_coordinates(a, b)
}

// Whether the rows of x_i and x_j commute.
fn commute_pair(tables: &Tables, i: usize, j: usize, count: usize, field: PrimeField) -> bool
    requires { AllBelow field.p tables.now × (i < most_variables) × (j < most_variables) × (count ≤ most_standard) }
    ensures { (h : 1 < field.p) → (result ≡ true) ↔ ((s : ℕ) → s < count → CommuteAt field.p h tables.now count i j s) }
{
    for s in 0..count {
        if !commute_at(tables, i, j, s, count, field) {
            return false;
        }
    }
    true
}

// Whether the rows of each variable before x_j commute with those of x_j.
fn commute_before(tables: &Tables, j: usize, count: usize, field: PrimeField) -> bool
    requires { AllBelow field.p tables.now × (j < most_variables) × (count ≤ most_standard) }
    ensures { (h : 1 < field.p) → (result ≡ true) ↔ ((i : ℕ) → i < j → (s : ℕ) → s < count → CommuteAt field.p h tables.now count i j s) }
{
    for i in 0..j {
        if !commute_pair(tables, i, j, count, field) {
            return false;
        }
    }
    true
}

// Whether all rows commute.
pub fn commute(tables: &Tables, n: Variables, count: usize, field: PrimeField) -> bool
    requires { AllBelow field.p tables.now × (count ≤ most_standard) }
    ensures { (h : 1 < field.p) → (result ≡ true) ↔ RowsCommute (modulo field.p h) n count (cell_of field.p h tables.now) }
{
    for j in 0..n.count() {
        if !commute_before(tables, j, count, field) {
            return false;
        }
    }
    true
}
