//! The text of an execution graph: a line for each entry that reads a message, with the entry that it reads from, a
//! line for each entry with a race, with the other access, and how many entries there are.
//!
//! Read `specs/GraphText.antt`: the lines, in their order.
#![tactic(auto)]

mod lines;
mod text;

pub use text::write_graph;
