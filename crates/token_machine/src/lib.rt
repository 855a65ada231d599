//! Texts that are read token by token, and where one that isn't of its grammar goes wrong first.
//!
//! A grammar is a function from trees to marked tokens: a mark is a token with the limit that it
//! exceeds where it stands, if any. A list of tokens is a viable prefix where some further tokens
//! make it a text of the grammar, whatever limits it exceeds. The first fault of a text stands at
//! the first token with which it is no viable prefix any more, or which exceeds a limit. Without the
//! limits this is where an LR(1) parser stops too (Knuth, "On the translation of languages from left
//! to right", 1965), which has the viable-prefix property.
//!
//! A machine with one state for each thing that was read is the device by which a reader is proved:
//! what it answers is the tree, or the first fault, exactly (`specs/Text` has the meaning,
//! `specs/Machine` the machine, and the functions of `laws` join them). Nothing here knows a
//! grammar: `il_grammar` has the one of programs.
#![tactic(auto)]

mod fault;
mod laws;
mod leaf;

pub use fault::{Fault, ReadError};
pub use laws::{
    one_first_fault, one_tree_at_most, read_under_a_map, read_where_spelled, refused_where_faulty,
    spelled_is_faultless, spelled_or_faulty,
};
pub use leaf::{fault_at, next};
