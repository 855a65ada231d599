//! The search for all outcomes of a program: runs that have them all.
//!
//! A work list of nodes, each kept as the journal of a run that ends in it. The moves from each are made, and what they
//! lead to is added where it is new. Where no node is left, each outcome is shown by a move that failed, or by a node in
//! which no thread goes on.
//!
//! Read `specs/Runs.antt` and `specs/Search.antt` first, and then the clauses of `complete_runs`.
#![tactic(auto)]

mod complete;
mod search;
mod stop;
mod table;

pub use complete::complete_runs;
pub use search::close;
pub use stop::Stop;
