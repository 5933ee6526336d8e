// Residues modulo a prime p of at most 251 (document 01, "Words and orders").
//
//   Residue       a residue, a type of its own so that an exponent cannot pass as one
//   field         the integers modulo a prime, as a type
//   prime         the test of a modulus
//   reciprocals   the table of reciprocals
//   word          remainders with no division
#![tactic(auto)]

ghost use Rattle.std.specs.Prelude.{◌≡◌, ◌<◌, ◌≤◌, ◌%◌, eqb};
ghost use Rattle.residue.specs.Prime.{largest_modulus};
ghost use Rattle.residue.specs.Modular.{sum_mod, negation_mod, product_mod};
ghost use Rattle.residue.specs.Differences.{difference_mod};

pub mod field;
pub mod prime;
pub mod reciprocals;
pub mod word;

#[derive(Clone, Copy, Default, PartialEq, Eq)]
pub struct Residue(pub u16);

// The modulus of add, sub and mul is any number of at most 251, prime or not, so that they take the number and no `PrimeField`; that a residue is below it is a
// clause, since it does not hold the modulus.
impl Residue {
    pub const ZERO: Residue = Residue(0);

    pub const ONE: Residue = Residue(1);

    // The residue of a number.
    pub fn of(number: u32, p: u16) -> Residue
        requires { 0 < p }
        ensures { (result.0 ≡ number % p) × (result.0 < p) }
    {
        Residue((number % (p as u32)) as u16)
    }

    pub fn is_zero(self) -> bool
        ensures { result ≡ eqb self.0 0 }
    {
        self == Residue::ZERO
    }

    pub fn add(self, other: Residue, p: u16) -> Residue
        requires { (self.0 < p) × (other.0 < p) × (p ≤ largest_modulus) }
        ensures { (result.0 ≡ sum_mod p self.0 other.0) × (result.0 < p) }
    {
        let s = self.0 + other.0;
        if s < p { Residue(s) } else { Residue(s - p) }
    }

    pub fn sub(self, other: Residue, p: u16) -> Residue
        requires { (self.0 < p) × (other.0 < p) × (p ≤ largest_modulus) }
        ensures { (result.0 ≡ difference_mod p self.0 other.0) × (result.0 < p) }
    {
        if other.0 <= self.0 {
            Residue(self.0 - other.0)
        } else {
            Residue(self.0 + (p - other.0))
        }
    }

    pub fn neg(self, p: u16) -> Residue
        requires { self.0 < p }
        ensures { (result.0 ≡ negation_mod p self.0) × (result.0 < p) }
    {
        if self.is_zero() {
            Residue::ZERO
        } else {
            Residue(p - self.0)
        }
    }

    pub fn mul(self, other: Residue, p: u16) -> Residue
        requires { (self.0 < p) × (other.0 < p) × (p ≤ largest_modulus) }
        ensures { (result.0 ≡ product_mod p self.0 other.0) × (result.0 < p) }
    {
        Residue(self.0 * other.0 % p)
    }
}
