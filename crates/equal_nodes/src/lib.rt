//! Whether runs end in the same node of the search for all outcomes.
//!
//! A node is kept as the journal of a run that leads to it. Two runs end in the same node where their threads have had
//! the same events, without their timestamps, and their last states have the same views and the same messages: all else
//! of a node follows. So the events are compared first, and only where they are equal is the last state of each run made
//! again. Read the clauses of `same_node` first.
#![tactic(auto)]

mod key;
mod memories;
mod nodes;
mod same;
mod told;

pub use key::key_of;
pub use nodes::same_node;
