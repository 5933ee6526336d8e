// Multiples and differences of vectors, their first nonzero places, and whether two are the same. No turn of a loop divides.
ghost use Rattle.std.specs.Prelude.{◌≡◌, true, ◌↔◌, ℕ, ◌<◌, ◌≤◌};
ghost use Rattle.lines.specs.Sizes.{most_standard};
ghost use Rattle.coordinates.specs.Vectors.{coordinate, Below, Cut, Represents, subtracted, multiplied, AddedMultiple, FirstPlace};

use crate::Coordinates;
use lines::sizes::MAX_STANDARD;
use residue::Residue;
use residue::field::PrimeField;

// a - c·b, as a + (p - c)·b
pub fn subtract_multiple(
    a: Coordinates,
    c: Residue,
    other: Coordinates,
    field: PrimeField,
) -> Coordinates
    requires { Below field.p a × (c.0 < field.p) × Below field.p other }
    ensures { Represents field.p result (subtracted field.p a c.0 other) }
{
    let minus_c = field.p - c.0;
    Coordinates::tabulate(|k| field.reduce(a.c[k].0 + minus_c * other.c[k].0))
}

// c·a
pub fn multiply(c: Residue, a: Coordinates, field: PrimeField) -> Coordinates
    requires { (c.0 < field.p) × Below field.p a }
    ensures { Represents field.p result (multiplied field.p c.0 a) }
{
    Coordinates::tabulate(|k| field.reduce(c.0 * a.c[k].0))
}

// a + c·b
pub fn add_multiple(
    a: Coordinates,
    c: Residue,
    other: Coordinates,
    field: PrimeField,
) -> Coordinates
    requires { (c.0 < field.p) × Below field.p a × Below field.p other }
    ensures { AddedMultiple field.p a c.0 other result }
{
    Coordinates::tabulate(|k| field.reduce(a.c[k].0 + c.0 * other.c[k].0))
}

// The first `count` coefficients, and zeros after them.
pub fn cut(mut r: Coordinates, count: usize) -> Coordinates
    requires { count ≤ most_standard }
    ensures { Cut count r result }
{
    for k in count..MAX_STANDARD {
        r.c[k] = Residue::ZERO;
    }
    r
}

// Whether all coefficients are equal.
pub fn same_coordinates(a: Coordinates, other: Coordinates) -> bool
    ensures { (result ≡ true) ↔ ((k : ℕ) → k < most_standard → coordinate a k ≡ coordinate other k) }
{
    a == other
}

// The first place that is not zero.
pub fn first_nonzero(a: Coordinates) -> Option<usize>
    ensures { FirstPlace a result }
{
    a.c.iter().position(|c| !c.is_zero())
}
