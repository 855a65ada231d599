//! That nothing is left out: laws over the definitions, which say of what must have an answer that it has one.
//!
//! The validator's walk finds every pair that stands side by side: a target that has all that runs know of an accepted one
//! is accepted. So the rules V1 to V7, of which a walk is the definition, refuse no more than the relation does. And each
//! program has a chain: the passes' definitions, which quantify over paths, have no hole.
#![tactic(auto)]

pub mod laws;
