//! Programs made from a number, to try optimisers and runners on.
//!
//! A program has four non-atomic locations, two atomic ones, and functions of 64 draws each, by the words of
//! one generator of random numbers (O'Neill, "PCG: a family of simple fast space-efficient statistically good
//! algorithms for random number generation"). Each thread's function has a location of its own among the four, so
//! that no access of a thread is a race that would end a run, and no loop turns more than three times: that no run
//! fails and each ends is seen, and isn't proved. What stands for which word is `specs/Generated.antt`, to be read
//! first.
#![tactic(auto)]

mod draw;
mod names;
mod program;

pub use program::generate;
