//! What `litmus` answers to an input: the outcomes that the runs of many seeds come to, each with the run of its least seed and the
//! run of the given program that explains it, and whether each expectation of the input is met.
//!
//! The program that is sampled is the last of the passes' chain. `specs/Session.antt` has what an answer is; what the input reads as and how the
//! output is written are `litmus_text`'s, the table of outcomes is `litmus`'.
#![tactic(auto)]

mod answer;
mod judging;
pub mod laws;
mod outcomes;

pub use answer::{LitmusAnswer, litmus_answer};
