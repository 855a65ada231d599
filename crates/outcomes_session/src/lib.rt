//! What `outcomes` answers to an input: all outcomes of the program that was given, within a budget of steps a thread, each with the
//! journal of a run that has it, and whether each expectation of the input is met.
//!
//! `specs/Session.antt` has what an answer is, `specs/Output.antt` how it is written, `specs/Judging.antt` when an expectation is met; what the input reads as is `litmus_text`'s, and
//! the outcomes are `outcome_search`'s and `outcome_list`'s.
#![tactic(auto)]

mod answer;
mod found;
mod judging;
pub mod laws;
mod telling;
mod text;

pub use answer::{OutcomesAnswer, outcomes_answer};
pub use found::outcomes;
pub use text::push_found;
