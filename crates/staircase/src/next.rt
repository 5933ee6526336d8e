// The next monomial in lex that no leading monomial divides.
ghost use Rattle.std.specs.Prelude.{ℕ, ◌<◌, take};
ghost use Rattle.monomial.specs.Rows.{exponent};
ghost use Rattle.monomial.specs.Represented.{row, most_entry};
ghost use Rattle.groebner.specs.Next.{RanksOnce};
ghost use Rattle.lines.specs.Bases.{Padded};
ghost use Rattle.staircase.specs.Leads.{lead_monomials, multiple, FoundNext};

use crate::leads::multiple;
use monomial::count::Variables;
use monomial::order::Ranking;
use monomial::{Exponent, Monomial};

// The next monomial, if there is one: raise the exponent of the last variable of the ranking; while the outcome is a multiple, set it to 0 and raise the one before.
pub fn next(leads: &[Monomial], m: Monomial, ranking: Ranking, n: Variables) -> Option<Monomial>
    requires { RanksOnce n (take n ranking.variables) × Padded n m
        × ((i : ℕ) → i < n → exponent n (row n m) i < most_entry) }
    ensures { FoundNext n (take n ranking.variables) (multiple n (lead_monomials n leads.now)) (row n m) result }
{
    let mut r = m;
    for i in (0..n.count()).rev() {
        let v = ranking.variables[i];
        r.e[v] = Exponent(r.e[v].0 + 1);
        if !multiple(leads, r, n) {
            return Some(r);
        }
        r.e[v] = Exponent(0);
    }
    None
}
