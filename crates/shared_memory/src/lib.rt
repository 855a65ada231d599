//! One message memory that many threads share. Each makes its accesses with a pass of its own, one access at
//! a time, and in whatever order they fall, all of them together are one legal history.
//!
//! It is a spin lock round a memory, with the journal under the lock. Beyond what a lock promises each access
//! tells the history that it ended: there is one legal history, in which each thread's calls stand in order. That is
//! more than sequential consistency, and less than linearizability after Herlihy and Wing ("Linearizability: A
//! Correctness Condition for Concurrent Objects", TOPLAS 1990): that a call which has returned before another begins
//! stands before it is seen in the code, since the journal is the order in which the turn was taken, and no clause
//! says it. Nothing is said of progress: not that a wait for the turn ends, nor in which order threads get it.
//!
//! Read first what contracts see of a memory and of a pass, and what an access says: `specs/Passes.antt`. How
//! the turn keeps it is `specs/Turns.antt`.
#![tactic(auto)]

mod close;
mod crossing;
pub mod laws;
mod opening;
mod params;
mod pass;
mod passes;
mod rule;
mod shared;
mod slot;

pub use crossing::{hand_over, share};
pub use params::SharedParams;
pub use pass::Pass;
pub use passes::Passes;
pub use shared::Shared;
pub use slot::Answer;
