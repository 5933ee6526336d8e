// Leading monomials, and the test for their multiples.
ghost use Rattle.std.specs.Prelude.{◌≡◌, ◌<◌, length, get_or};
ghost use Rattle.monomial.specs.Rows.{one};
ghost use Rattle.monomial.specs.Quotients.{divides};
ghost use Rattle.monomial.specs.Represented.{row};
ghost use Rattle.staircase.specs.Leads.{lead_monomials, leads_in, multiple};

use lines::StoredBasis;
use lines::inline_list::InlineList;
use lines::line::lead;
use lines::sizes::MAX_LINES;
use monomial::Monomial;
use monomial::count::Variables;

pub type Leads = InlineList<Monomial, MAX_LINES>;

// The leading monomials of the lines of a basis.
pub fn leads_of(basis: &StoredBasis) -> Leads
    ensures { result.items ≡ leads_in basis.now }
{
    let mut l = Leads::new();
    for i in 0..basis.lines.len() {
        l.push(lead(&basis.lines[i]));
    }
    l
}

// Whether one of them divides m.
pub fn multiple(leads: &[Monomial], m: Monomial, n: Variables) -> bool
    ensures { result ≡ multiple n (lead_monomials n leads.now) (row n m) }
{
    (0..leads.len()).any(
        |k|
            requires { k < length leads.now }
            ensures { result ≡ divides n (get_or (lead_monomials n leads.entry.now) k (one n)) (row n m) }
        { leads[k].divides(m, n) },
    )
}
