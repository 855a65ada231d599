//! The expectations of a text, each on a line of its own.
ghost use Rattle.std.specs.Prelude.{◌≡◌, MatchResult};
ghost use Rattle.il_syntax.specs.WellFormed.{IsWellFormed};
ghost use Rattle.litmus_text.specs.Expectation.{named_locations};
ghost use Rattle.litmus_text.specs.Expectations.{ReadsExpectations, IsExpectationsFault};
ghost use Rattle.litmus_text.specs.declared.expectations.ExpectationsFault.TheVariants.{NoMemory};

use crate::expectation::Expectation;
use crate::line::expectation_of_line;
use il_syntax::Program;
use std::alloc::{AllocError, AllocFailed, Global};
use text_parts::next_line;

/// Why a text gave no expectations.
#[derive(Clone, Copy, PartialEq, Eq)]
pub(crate) enum ExpectationsFault {
    /// After so many lines comes one that is no expectation, or one too many.
    Refused { lines: u32 },
    /// There was no memory to read it.
    NoMemory,
}

impl From<AllocError> for ExpectationsFault {
    ghost from_gives = { λ _ e. e ≡ NoMemory };

    fn from(_error: AllocError) -> ExpectationsFault {
        ExpectationsFault::NoMemory
    }
}

impl<T: Drop> From<AllocFailed<T>> for ExpectationsFault {
    ghost from_gives = { λ _ e. e ≡ NoMemory };

    fn from(_error: AllocFailed<T>) -> ExpectationsFault {
        ExpectationsFault::NoMemory
    }
}

/// The most lines of expectations.
pub const MOST_EXPECTATIONS: usize = 256;

/// The expectations of a text, which may name last values of the program's locations where `finals` says so: each on a line of its
/// own, at most [`MOST_EXPECTATIONS`] of them; the newline of the last may be missing. The text is refused after the expectations
/// that it has, where the line after them is none, or is one too many.
pub(crate) fn read_expectations(
    alloc: Global,
    text: &[u8],
    p: &Program,
    finals: bool,
) -> Result<Vec<Expectation>, ExpectationsFault>
    requires { IsWellFormed p.now }
    ensures { MatchResult result (λ v. ReadsExpectations (named_locations finals p.now) text.now v.items) (IsExpectationsFault (named_locations finals p.now) text.now) }
{
    let mut expectations = Vec::new(alloc);
    let mut rest = text;
    'lines: while let Some((line, after)) = next_line(rest) {
        if expectations.len() == MOST_EXPECTATIONS {
            let lines = MOST_EXPECTATIONS as u32;
            return Err(ExpectationsFault::Refused { lines });
        }
        let expectation = expectation_of_line(alloc, line, p, finals)?;
        match expectation {
            Some(expectation) => {
                expectations.push(expectation)?;
                rest = after;
            }
            None => {
                let lines = expectations.len() as u32;
                return Err(ExpectationsFault::Refused { lines });
            }
        }
    }
    Ok(expectations)
}
