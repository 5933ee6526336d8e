// The ranks of lists of monomials.
ghost use Rattle.std.specs.Prelude.{◌≡◌, ◌≤◌, length};
ghost use Rattle.monomial.specs.Ranks.{RanksOf};
ghost use Rattle.staircase.specs.Leads.{rows_of};

use arrayvec::ArrayVec;
use monomial::Monomial;
use monomial::count::Variables;
use monomial::rank::rank;

// The ranks of the monomials of a list.
pub fn ranks_of<const N: usize>(list: &[Monomial], n: Variables) -> ArrayVec<u64, N>
    requires { length list.now ≤ N }
    ensures { (length result.items ≡ length list.now) × RanksOf n (rows_of n list.now) (length list.now) result.items }
{
    let mut ranks = ArrayVec::new();
    for m in list {
        ranks.push(rank(*m, n));
    }
    ranks
}
