//! The text of `litmus`: its input, which is a program and, after the line `expect`, expectations of its outcomes; and its output,
//! the outcomes of a table, and whether each expectation is met. Expectations name outputs, and those of `outcomes` last values too.
//!
//! `specs/Expectation.antt` has the line of an expectation, `specs/Expectations.antt` what the text of the expectations reads as,
//! `specs/Reading.antt` what an input reads as, and which refusal of another is the first; `specs/Output.antt` the lines of
//! the output.
#![tactic(auto)]

mod expectation;
mod expectations;
mod fault;
mod input;
pub mod laws;
mod line;
mod output;

pub use expectation::{Expectation, ExpectedWord, LastValue};
pub use expectations::MOST_EXPECTATIONS;
pub use fault::LitmusRule;
pub use input::{LitmusInput, read_litmus};
pub use output::{
    push_ending, push_outcome, push_outputs, push_titled, push_verdict, push_verdicts, verdict,
    wanted,
};
