// The line of a monomial that depends on standard monomials: the monomial less their combination, greatest term first.
ghost use Rattle.fglm.specs.WrittenLines.{LineInput, WrittenLine};

use coordinates::Coordinates;
use lines::line::{Generator, LineTerm};
use monomial::Monomial;
use monomial::count::Variables;
use residue::Residue;

// m less the combination of the standard monomials: from the last of these, the greatest, to the first.
// One of which the coefficient is 0 makes no term.
pub fn line_of(
    m: Monomial,
    combination: Coordinates,
    standard: &[Monomial],
    p: u16,
    n: Variables,
) -> Generator
    requires { LineInput p n m combination standard.now }
    ensures { WrittenLine p n m combination standard.now result.items }
{
    let mut g = Generator::new();
    g.push(LineTerm {
        coefficient: Residue::ONE,
        monomial: m,
    });
    for k in (0..standard.len()).rev() {
        let c = combination.c[k];
        if !c.is_zero() {
            g.push(LineTerm {
                coefficient: c.neg(p),
                monomial: standard[k],
            });
        }
    }
    g
}
