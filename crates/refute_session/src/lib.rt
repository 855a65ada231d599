//! What `refute` answers to an input of two programs: whether each outcome that the target has within a budget of steps a thread, done
//! or failed, is covered by one of the source's; and else the first that isn't, with the journal of a run of the target that has it.
//!
//! `specs/Session.antt` has what an answer is, and `specs/Laws.antt` what it says of runs; the outcomes are `outcomes_session`'s, and
//! `outcome_list` says when one covers another.
#![tactic(auto)]

mod answer;
mod comparing;
pub mod laws;

pub use answer::{RefuteAnswer, refute_answer};
