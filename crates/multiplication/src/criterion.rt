// Check 15: whether the lines of a basis are a Groebner basis, by the rows of the products x_i·B_s.
ghost use Rattle.multiplication.specs.Rows.{NoRows};
ghost use Rattle.multiplication.specs.Criterion.{Candidate, Acceptance};

use crate::commute::commute;
use crate::fill::fill;
use crate::rows::Tables;
use lines::StoredBasis;
use monomial::Monomial;
use residue::field::PrimeField;

// Whether the lines are a Groebner basis; the rows are left in the lent tables. The irreducible monomials stand in rising grevlex order.
// As many lines as variables have coprime leading monomials, and are a Groebner basis.
pub fn is_groebner(tables: &mut Tables, basis: &StoredBasis, irreducibles: &[Monomial]) -> bool
    requires { NoRows tables.old × Candidate basis.now irreducibles.now }
    ensures { Acceptance basis.now irreducibles.now result tables.new }
{
    let field = PrimeField::new(basis.p);
    fill(&mut *tables, basis, irreducibles);
    basis.lines.len() == basis.n.count() || commute(&*tables, basis.n, irreducibles.len(), field)
}
