// Check 13: each variable has a leading monomial that is a power of it.
ghost use Rattle.std.specs.Prelude.{◌≡◌, true, ◌↔◌};
ghost use Rattle.staircase.specs.Leads.{lead_monomials, PowerIn, Powers};

use monomial::Monomial;
use monomial::count::Variables;

// Whether one of them is a power of variable v.
fn has_power(leads: &[Monomial], v: usize, n: Variables) -> bool
    ensures { (result ≡ true) ↔ PowerIn n v (lead_monomials n leads.now) }
{
    leads.iter().any(|d| d.is_power(v, n))
}

pub fn zero_dimensional(leads: &[Monomial], n: Variables) -> bool
    ensures { (result ≡ true) ↔ Powers n (lead_monomials n leads.now) }
{
    (0..n.count()).all(|v| has_power(leads, v, n))
}
