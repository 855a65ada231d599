//! Forwarding: an na load whose value is known becomes a copy of it.
//!
//! `specs/Forwarded` says what a forwarded function is; `store_forward` and `load_forward` are its two
//! kinds. As in global value forwarding of compilers the copied atom is known over all paths; among several
//! the least is taken, so that there is one answer. Each load stays a statement of its site, so every other
//! site keeps its number.
#![tactic(auto)]

pub mod laws;
mod walk;

pub use walk::forward;
