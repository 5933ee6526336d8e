// Places of monomials in lists.
ghost use Rattle.monomial.specs.Represented.{row};
ghost use Rattle.staircase.specs.Listed.{listed, Place};

use monomial::Monomial;
use monomial::count::Variables;
use monomial::rank::equal;

// The place of m in the list, if it is one of those listed.
pub fn place_of(list: &[Monomial], m: Monomial, n: Variables) -> Option<usize>
    ensures { Place n (listed n list.now) (row n m) result }
{
    list.iter().position(|d| equal(*d, m, n))
}
