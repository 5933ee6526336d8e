// The sizes of a basis, which the definitions have in specs/Sizes.antt.
ghost use Rattle.std.specs.Prelude.{◌≡◌};
ghost use Rattle.lines.specs.Sizes.{most_standard, most_terms, most_lines};

use monomial::MAX_VARIABLES;

// Standard monomials.
pub const MAX_STANDARD: usize = 32;

// Terms in a line.
pub const MAX_TERMS: usize = MAX_STANDARD + 1;

// Poly lines.
pub const MAX_LINES: usize = MAX_VARIABLES * MAX_STANDARD - (MAX_STANDARD - 1);

// One for each constant, whose value it says; a generic one would still be told which.
pub fn max_standard() -> usize
    ensures { result ≡ most_standard }
{
    MAX_STANDARD
}

pub fn max_terms() -> usize
    ensures { result ≡ most_terms }
{
    MAX_TERMS
}

pub fn max_lines() -> usize
    ensures { result ≡ most_lines }
{
    MAX_LINES
}
