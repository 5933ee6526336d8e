// The test of check 4 (document 01, "Refused texts").
ghost use Rattle.std.specs.Prelude.{◌≡◌, true, ◌↔◌};
ghost use Rattle.residue.specs.Prime.{Modulus, largest_modulus};

// The largest modulus, which the definitions have as largest_modulus.
pub const LARGEST_MODULUS: u16 = 251;

// One for each constant, whose value it says; a generic one would still be told which.
pub fn largest_modulus() -> u16
    ensures { result ≡ largest_modulus }
{
    LARGEST_MODULUS
}

// Whether p is a prime from 2 to 251. A divisor, if there is one, is found among those whose square is at most p.
pub fn is_modulus(p: u32) -> bool
    ensures { (result ≡ true) ↔ Modulus p }
{
    if p < 2 || (LARGEST_MODULUS as u32) < p {
        return false;
    }
    for d in 2..p {
        if p < d * d {
            return true;
        }
        if p % d == 0 {
            return false;
        }
    }
    true
}
