// Coordinates: vectors of MAX_STANDARD residues.
//
//   Coordinates   such a vector
//   vectors       multiples and differences of vectors, their first nonzero places, and whether two are the same
#![tactic(auto)]

ghost use Rattle.std.specs.Prelude.{◌≡◌, ℕ, ◌<◌};
ghost use Rattle.lines.specs.Sizes.{most_standard};
ghost use Rattle.coordinates.specs.Vectors.{residue_at, coordinate, indicator, Represents, unit_vector};

use lines::sizes::MAX_STANDARD;
use residue::Residue;

pub mod vectors;

// Coefficient k is that of the monomial at place k of a list. That it is below p is a clause of the functions, `Below p`: p is the modulus of the field
// in use, which a vector does not hold.
#[derive(Clone, Copy, Default, PartialEq, Eq)]
pub struct Coordinates {
    pub c: [Residue; MAX_STANDARD],
}

impl Coordinates {
    pub fn zero() -> Coordinates
        ensures { (k : ℕ) → coordinate result k ≡ 0 }
    {
        Coordinates {
            c: [Residue::ZERO; MAX_STANDARD],
        }
    }

    // The vector whose coefficient at each place k is f(k).
    fn tabulate<F: Fn(usize) -> Residue>(f: F) -> Coordinates
        requires { (k : ℕ) → k < most_standard → F.pre f k }
        ensures { (k : ℕ) → k < most_standard → F.post f k (residue_at result k) }
    {
        let mut r = Coordinates::zero();
        for k in 0..MAX_STANDARD {
            r.c[k] = f(k);
        }
        r
    }

    // 1 at place k, 0 elsewhere; all 0 if there is no place k.
    pub fn unit(k: usize) -> Coordinates
        ensures place { k < most_standard → (j : ℕ) → coordinate result j ≡ indicator j k }
        ensures represents { (p : ℕ) → 1 < p → Represents p result (unit_vector p k) }
    {
        let mut r = Coordinates::zero();
        if k < MAX_STANDARD {
            r.c[k] = Residue::ONE;
        }
        r
    }
}
