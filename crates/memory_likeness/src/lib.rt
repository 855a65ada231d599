//! Memories that differ in the numbers of their timestamps alone.
//!
//! The timestamps of the view machine (after the promising semantics of Kang, Hur, Lahav, Vafeiadis and Dreyer, POPL
//! 2017) matter by their order only, and by whether something can come between two messages. So two memories are alike
//! where, location by location, their messages correspond in order; and where a message of the second begins at the
//! end of another, so does its partner. Each access of the first is then followed by one of the second, in which room
//! has been made behind a message by moving what stands above it; and a step told with other timestamps of a location,
//! in the same order, is a step.
//!
//! There is no code here but laws. Read `specs/Likeness.antt` first, then `specs/Moved.antt` and `specs/Answering.antt`.
#![tactic(auto)]

pub mod laws;
