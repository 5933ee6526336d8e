// Check 12: the smallest line of which a monomial is divisible by another line's leading monomial.
ghost use Rattle.std.specs.Prelude.{◌≡◌, true, ◌↔◌, ◌<◌, length};
ghost use Rattle.monomial.specs.Quotients.{divides};
ghost use Rattle.monomial.specs.Represented.{row};
ghost use Rattle.lines.specs.LineTerms.{monomial_at};
ghost use Rattle.staircase.specs.Leads.{lead_monomials, LeadsOf};
ghost use Rattle.staircase.specs.Places.{DividesTerm, DividedByAnother, FirstDivided};
ghost use Rattle.staircase.specs.Sound.{Sound};

use lines::StoredBasis;
use lines::line::LineTerm;
use monomial::Monomial;
use monomial::count::Variables;

// Whether d divides a monomial of the line.
fn divides_term(d: Monomial, g: &[LineTerm], n: Variables) -> bool
    ensures { (result ≡ true) ↔ DividesTerm n (row n d) g.now }
{
    (0..g.len()).any(
        |k|
            requires { k < length g.now }
            ensures { result ≡ divides n (row n d) (row n (monomial_at g.entry.now k)) }
        { d.divides(g[k].monomial, n) },
    )
}

// Whether the leading monomial of a line other than line i divides a monomial of g.
fn divided_by_another(g: &[LineTerm], i: usize, leads: &[Monomial], n: Variables) -> bool
    ensures { (result ≡ true) ↔ DividedByAnother n i (lead_monomials n leads.now) g.now }
{
    for (j, d) in leads.iter().enumerate() {
        let other = j != i;
        if other && divides_term(*d, g, n) {
            return true;
        }
    }
    false
}

// The number of that line, if there is one.
pub fn first_divided(basis: &StoredBasis, leads: &[Monomial]) -> Option<usize>
    requires { Sound basis.now × LeadsOf basis.now leads.now }
    ensures { FirstDivided basis.now result }
{
    for (i, g) in basis.lines.iter().enumerate() {
        if divided_by_another(g, i, leads, basis.n) {
            return Some(i + 2);
        }
    }
    None
}
