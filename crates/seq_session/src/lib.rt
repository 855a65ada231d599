//! A session of `seq`: what it answers to an input of two programs and events, and to the name of a function. The session
//! of a function is decided as `validate` decides it, and then target and source are played together.
//!
//! Read `specs/Session.antt`, which has the answers in their order.
#![tactic(auto)]

mod answer;
pub mod laws;
mod session;

pub use answer::SeqAnswer;
pub use session::seq_answer;
