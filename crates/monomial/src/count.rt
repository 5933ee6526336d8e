// The number of variables, which is at most MAX_VARIABLES.
ghost use Rattle.std.specs.Prelude.{◌≡◌, ◌≤◌, ℕ};
ghost use Rattle.monomial.specs.Sizes.{most_variables};

use std::marker::Model;

// How many variables there are. Clauses see the number.
#[derive(Clone, Copy, Default)]
pub struct Variables {
    count: usize,
}

impl Model for Variables {
    ghost Value = { ℕ };

    ghost view = { λ x. x.count };

    ghost inverse = { λ n. record { count = n } };

    ghost invariant = { λ x. x.count ≤ most_variables };
}

impl Variables {
    pub fn new(count: usize) -> Variables
        requires { count ≤ most_variables }
        ensures { result ≡ count }
    {
        Variables { count }
    }

    // The number.
    pub fn count(self) -> usize
        ensures value { result ≡ self }
        ensures fits { result ≤ most_variables }
    {
        self.count
    }
}
