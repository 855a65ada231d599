//! Views of the message memory: how much a thread or a message knows of each location.
//!
//! What a message knows is one timestamp for each location (`Times`). What a thread knows is three of
//! these (`View`), as in the promising semantics of Kang, Hur, Lahav, Vafeiadis and Dreyer ("A Promising
//! Semantics for Relaxed-Memory Concurrency", POPL 2017), whose release views by location are one here.
//! Non-atomic location `x` stands at index `x`, and atomic location `y` at the number of non-atomic
//! locations plus `y`. All lies in place, so no call here takes memory. Read `specs/ThreadView.antt` first.
#![tactic(auto)]

pub mod laws;
#[cfg(test)]
mod tests;
mod times;
mod timestamps;
mod view;

pub use times::{MAX_LOCATIONS, Times};
pub use view::View;
