// Remainders modulo p with no division by p: a product and a shift give the quotient by p, or one less.
ghost use Rattle.std.specs.Prelude.{◌≡◌, ◌<◌, ◌-◌, ◌/◌, ◌%◌};
ghost use Rattle.residue.specs.Word.{word};

use crate::Residue;

// One more than the largest u16, which the definitions have as word.
const WORD: u32 = 65536;

// The quotient of the largest u16 by p.
pub fn word_over(p: u16) -> u16
    requires { 0 < p }
    ensures { result ≡ (word - 1) / p }
{
    ((WORD - 1) / (p as u32)) as u16
}

// x modulo p. With the quotient of the largest u16 by p, the quotient of x is x · over / word, or one more.
pub fn reduce(x: u16, over: u16, p: u16) -> Residue
    requires { (0 < p) × (over ≡ (word - 1) / p) }
    ensures { (result.0 ≡ x % p) × (result.0 < p) }
{
    let quotient = ((x as u32) * (over as u32) / WORD) as u16;
    let r = x - quotient * p;
    if r < p { Residue(r) } else { Residue(r - p) }
}
