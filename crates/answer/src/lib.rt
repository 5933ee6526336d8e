// Answers to a text: the numbered refusals, and what checks and routines say.
//
//   Refusal   the refusals of document 01
//   Refused   a refusal and its line
//   Check     what the checks of one line say
//   Verdict   what the checks of a text say
//   Answer    what a routine that writes an output says
#![tactic(auto)]

ghost use Rattle.std.specs.Prelude.{◌≡◌, Some};
ghost use Rattle.answer.specs.Refusals.{number};
ghost use Rattle.answer.specs.Printed.{refused_text};

use std::error::Error;
use std::fmt;

// In the order of their numbers, 1 to 16.
#[derive(Clone, Copy, PartialEq, Eq, Debug)]
pub enum Refusal {
    InputTooLong = 1,
    BadLine,
    OrderNotGrevlex,
    BadPrime,
    BadVariableCount,
    BadCoefficient,
    ExponentTooLarge,
    TermsNotFalling,
    NotMonic,
    TooManyLinesOrTerms,
    EndNumberDiffers,
    NotReduced,
    NotZeroDimensional,
    TooManyStandardMonomials,
    NotGroebner,
    OutputTooShort,
}

impl Refusal {
    // Document 01's number.
    pub fn number(self) -> u32
        ensures { result ≡ number self }
    {
        self as u32
    }

    // This refusal, of that line.
    pub fn at(self, line: usize) -> Refused
        ensures { result ≡ record { refusal = self; line = line } }
    {
        Refused {
            refusal: self,
            line,
        }
    }
}

// A refusal and its line.
#[derive(Clone, Copy, PartialEq, Eq, Debug)]
pub struct Refused {
    pub refusal: Refusal,
    pub line: usize,
}

impl fmt::Display for Refused {
    ghost output = { λ e. Some (refused_text e) };

    fn fmt<W: fmt::Write>(&self, f: &mut fmt::Formatter<W>) -> fmt::Result {
        write!(f, "refused\t{}\t{}", self.refusal.number(), self.line)
    }
}

impl Error for Refused {}

// What the checks of one line say.
pub type Check = Result<(), Refusal>;

// Passed, or a refusal and its line.
pub type Verdict = Result<(), Refused>;

// Accepted with the length written, or a refusal and its line.
pub type Answer = Result<usize, Refused>;
