// Reciprocals modulo p, from a table filled once for each p by counting (document 01, "Words and orders").
ghost use Rattle.std.specs.Prelude.{◌≡◌, ℕ, ◌<◌};
ghost use Rattle.residue.specs.Modular.{product_mod};
ghost use Rattle.residue.specs.Reciprocals.{Serves};

use crate::Residue;
use crate::field::PrimeField;
use crate::prime::LARGEST_MODULUS;

// A field, and the reciprocal of each of its residues but zero.
#[derive(Clone, Copy)]
pub struct Reciprocals {
    pub field: PrimeField,
    pub table: [u16; LARGEST_MODULUS as usize],
    pub ghost serves: { Serves field.p table },
}

// The reciprocal of a, if none is below a: b counts up from a, with a·b beside it, until a·b is 1. Where none below p - 1 is, p - 1 is.
fn counted(a: Residue, field: PrimeField) -> Residue
    requires { (0 < a.0) × (a.0 < field.p) × ((b : ℕ) → b < a.0 → ¬ (product_mod field.p a.0 b ≡ 1)) }
    ensures { (product_mod field.p a.0 result.0 ≡ 1) × (result.0 < field.p) }
{
    let p = field.p;
    let mut multiple = a.mul(a, p);
    for b in a.0..p - 1 {
        if multiple == Residue::ONE {
            return Residue(b);
        }
        multiple = multiple.add(a, p);
    }
    Residue(p - 1)
}

impl Reciprocals {
    // Each reciprocal that is found is stored for both numbers of the pair, and their opposites, which are a pair too, for each other.
    pub fn new(field: PrimeField) -> Reciprocals
        ensures { result.field ≡ field }
    {
        let p = field.p;
        let mut table = [0u16; LARGEST_MODULUS as usize];
        for a in 1..field.p {
            if table[a as usize] == 0 {
                let b = counted(Residue(a), field).0;
                table[a as usize] = b;
                table[b as usize] = a;
                table[(p - a) as usize] = p - b;
                table[(p - b) as usize] = p - a;
            }
        }
        Reciprocals { field, table }
    }

    pub fn of(self, a: Residue) -> Residue
        requires { (0 < a.0) × (a.0 < self.field.p) }
        ensures { (product_mod self.field.p a.0 result.0 ≡ 1) × (result.0 < self.field.p) }
    {
        let at = a.0 as usize;
        let b = self.table[at];
        Residue(b)
    }
}
