// The integers modulo a prime, with what their remainders need.
ghost use Rattle.std.specs.Prelude.{◌≡◌, ◌<◌, ◌-◌, ◌/◌, ◌%◌};
ghost use Rattle.residue.specs.Prime.{Modulus};
ghost use Rattle.residue.specs.Word.{word};

use crate::Residue;
use crate::word::{reduce, word_over};

// The integers modulo a prime: the modulus, and the quotient of the largest u16 by it.
#[derive(Clone, Copy)]
pub struct PrimeField {
    pub p: u16,
    pub over: u16,
    pub ghost prime: { Modulus p },
    pub ghost quotient: { over ≡ (word - 1) / p },
}

impl PrimeField {
    pub fn new(p: u16) -> PrimeField
        requires { Modulus p }
        ensures { result.p ≡ p }
    {
        PrimeField {
            p,
            over: word_over(p),
        }
    }

    // x modulo p.
    pub fn reduce(self, x: u16) -> Residue
        ensures { (result.0 ≡ x % self.p) × (result.0 < self.p) }
    {
        reduce(x, self.over, self.p)
    }
}
