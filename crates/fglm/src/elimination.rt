// Row elimination (document 01, "The walk"): rows in reduced echelon form, each with the combination of the added vectors that it is.
ghost use Rattle.std.specs.Prelude.{◌≡◌, ◌<◌};
ghost use Rattle.lines.specs.Sizes.{most_standard};
ghost use Rattle.coordinates.specs.Vectors.{coordinate, Below, FirstPlace};
ghost use Rattle.fglm.specs.RowState.{SoundVector, SoundRow, SoundRows};
ghost use Rattle.fglm.specs.Elimination.{LeftOf};
ghost use Rattle.fglm.specs.Steps.{Dependence, LessMultiple, TimesNumber, Scaled, ClearedRow, Inserted};

use coordinates::Coordinates;
use coordinates::vectors::{first_nonzero, multiply, subtract_multiple};
use lines::sizes::MAX_STANDARD;
use residue::Residue;
use residue::field::PrimeField;
use residue::reciprocals::Reciprocals;

// A vector, and the combination of the added vectors that it is; of what is left of a vector, that vector is the last of these.
#[derive(Clone, Copy)]
pub struct AugmentedVector {
    pub vector: Coordinates,
    pub combination: Coordinates,
}

// A row, of which the vector is 1 at the pivot.
#[derive(Clone, Copy)]
pub struct Reduced {
    pub pivot: usize,
    pub row: AugmentedVector,
}

// The first of the array; coefficient k of a combination is that of the k-th vector that was added.
// An array of row structs with the count of those in use, handed back by value: document 01 settles this form of the state.
#[derive(Clone, Copy)]
pub struct Rows {
    pub used: usize,
    pub rows: [Reduced; MAX_STANDARD],
}

// That the entries are below p is said in clauses, by SoundVector, SoundRow and SoundRows: a row has neither the modulus nor the vectors added before.
impl AugmentedVector {
    // A pivot, if anything is left; else the vector depends on those added before.
    pub fn found(self) -> Option<usize>
        ensures { FirstPlace self.vector result }
    {
        first_nonzero(self.vector)
    }

    // If nothing is left, the combination of the vectors added before that the vector is.
    pub fn dependence(self, field: PrimeField) -> Coordinates
        requires { SoundVector field.p self }
        ensures { Dependence field.p self result }
    {
        let minus_one = Residue::ONE.neg(field.p);
        multiply(minus_one, self.combination, field)
    }

    // Less c times another.
    fn less(self, c: Residue, other: AugmentedVector, field: PrimeField) -> AugmentedVector
        requires { SoundVector field.p self × (c.0 < field.p) × SoundVector field.p other }
        ensures { LessMultiple field.p self c.0 other result }
    {
        AugmentedVector {
            vector: subtract_multiple(self.vector, c, other.vector, field),
            combination: subtract_multiple(self.combination, c, other.combination, field),
        }
    }

    // Times c.
    fn times(self, c: Residue, field: PrimeField) -> AugmentedVector
        requires { SoundVector field.p self × (c.0 < field.p) }
        ensures { TimesNumber field.p self c.0 result }
    {
        AugmentedVector {
            vector: multiply(c, self.vector, field),
            combination: multiply(c, self.combination, field),
        }
    }

    // Times the reciprocal of the entry at place k: a row with the pivot k.
    pub fn scaled(self, k: usize, reciprocals: Reciprocals) -> Reduced
        requires { SoundVector reciprocals.field.p self × (k < most_standard) × ¬ (coordinate self.vector k ≡ 0) }
        ensures { Scaled reciprocals self k result }
    {
        let c = reciprocals.of(self.vector.c[k]);
        Reduced {
            pivot: k,
            row: self.times(c, reciprocals.field),
        }
    }
}

impl Reduced {
    // Less the multiple of q that makes it zero at q's pivot.
    fn cleared(self, q: Reduced, field: PrimeField) -> Reduced
        requires { SoundRow field.p self × SoundRow field.p q }
        ensures { ClearedRow field.p q self result }
    {
        let c = self.row.vector.c[q.pivot];
        Reduced {
            pivot: self.pivot,
            row: self.row.less(c, q.row, field),
        }
    }
}

impl Rows {
    // No row is used; what stands in the array is free.
    pub fn none() -> Rows
        ensures { result.used ≡ 0 }
    {
        let zero = Coordinates::zero();
        let row = Reduced {
            pivot: 0,
            row: AugmentedVector {
                vector: zero,
                combination: zero,
            },
        };
        Rows {
            used: 0,
            rows: [row; MAX_STANDARD],
        }
    }

    // Each row less the multiple of q that makes it zero at q's pivot, and then q. A row that is zero there stays as it is.
    pub fn insert(mut self, q: Reduced, field: PrimeField) -> Rows
        requires { SoundRows field.p self × SoundRow field.p q × (self.used < most_standard) }
        ensures { Inserted field.p q self result }
    {
        let at = self.used;
        for i in 0..at {
            let r = self.rows[i];
            let c = r.row.vector.c[q.pivot];
            if c.0 != 0 {
                self.rows[i] = r.cleared(q, field);
            }
        }
        self.rows[at] = q;
        self.used = at + 1;
        self
    }

    // v less each row times v's entry at its pivot; a row with the entry 0 is passed over.
    pub fn residual(self, v: Coordinates, field: PrimeField) -> AugmentedVector
        requires { SoundRows field.p self × Below field.p v }
        ensures { LeftOf field.p self v result }
    {
        let mut x = AugmentedVector {
            vector: v,
            combination: Coordinates::unit(self.used),
        };
        for r in &self.rows[..self.used] {
            let c = v.c[r.pivot];
            if c.0 != 0 {
                x = x.less(c, r.row, field);
            }
        }
        x
    }
}
