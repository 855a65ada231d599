//! All functions of a program optimised side by side: `rayon` shares them out among threads, and the answer is
//! the one that one thread makes, since each function has one chain. Read `specs/Neighbours` first.
#![tactic(auto)]

mod driver;
pub mod laws;

pub use driver::optimise;
