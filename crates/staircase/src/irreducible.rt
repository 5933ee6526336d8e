// The monomials that no leading monomial divides, in rising lex order.
ghost use Rattle.std.specs.Prelude.{◌≤◌, length, option_map, IfSome};
ghost use Rattle.monomial.specs.Sizes.{VariableCount};
ghost use Rattle.monomial.specs.Orders.{variables};
ghost use Rattle.lines.specs.Sizes.{most_standard};
ghost use Rattle.staircase.specs.Leads.{lead_monomials, multiple, CountIs};
ghost use Rattle.staircase.specs.Listed.{listed};

use crate::leads::multiple;
use crate::next::next;
use lines::inline_list::InlineList;
use lines::sizes::MAX_STANDARD;
use monomial::Monomial;
use monomial::count::Variables;
use monomial::order::x1_to_xn;

pub type Irreducibles = InlineList<Monomial, MAX_STANDARD>;

// The list of them, or None: there are more than MAX_STANDARD.
pub fn list_irreducibles(leads: &[Monomial], n: Variables) -> Option<Irreducibles>
    requires { VariableCount n }
    ensures { CountIs n (variables n) (multiple n (lead_monomials n leads.now)) most_standard (option_map (λ l. listed n l.items) result)
        × IfSome result (λ l. length l.items ≤ most_standard) }
{
    let mut l = Irreducibles::new();
    let ranking = x1_to_xn();
    let one = Monomial::one();
    let mut m = (!multiple(leads, one, n)).then_some(one);
    while let Some(v) = m {
        let full = l.len() == MAX_STANDARD;
        if full {
            return None;
        }
        l.push(v);
        m = next(leads, v, ranking, n);
    }
    Some(l)
}
