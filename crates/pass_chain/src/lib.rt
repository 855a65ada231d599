//! The four passes one after the other, for a function and for a program: loads are forwarded from stores,
//! loads are put before loops, loads are forwarded from loads, and stores that are overwritten first are removed.
//!
//! Each pass decides all its sites on the function that it is given, and none is run again. Read
//! `specs/Chain.antt` first; each pass has its definition in its own crate.
#![tactic(auto)]

mod chains;
mod counts;
pub mod laws;

pub use chains::{FunctionChain, ProgramChain, chain, gather};
pub use counts::{Counts, count};
