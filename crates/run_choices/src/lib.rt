//! What is asked of the runs that a runner makes, whoever makes them: that a journal is complete for a budget
//! of steps, and that its choices were drawn from a seed, or picked by a list.
//!
//! There is no code here but laws. One thread that gives the program's threads turns (`walker`) and the
//! program's own threads side by side promise the same, by these definitions. Read `specs/Complete.antt`
//! and `specs/Drawn.antt`.
#![tactic(auto)]

pub mod laws;
