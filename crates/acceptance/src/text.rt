// Checks 2 to 15 of a text: its lines in turn, and then the whole basis.
ghost use Rattle.multiplication.specs.Rows.{NoRows};
ghost use Rattle.acceptance.specs.Answers.{TextSays};

use crate::check_whole;
use answer::Refused;
use checks::basis::read_basis;
use lines::StoredBasis;
use multiplication::rows::Tables;
use staircase::irreducible::Irreducibles;

// 2 to 15: the irreducible monomials in rising grevlex order. The basis and its multiplication rows are left in what is lent.
pub fn check_text(
    text: &[u8],
    basis: &mut StoredBasis,
    tables: &mut Tables,
) -> Result<Irreducibles, Refused>
    requires { NoRows tables.old }
    ensures { TextSays text.now result basis.new tables.new }
{
    read_basis(text, &mut *basis)?;
    check_whole(&mut *tables, &*basis)
}
