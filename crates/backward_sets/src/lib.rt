//! Walks from the end of a block to its beginning that keep a set of numbers, locations or registers: each is in
//! the set after a site where all paths from there say so, or where some path does.
//!
//! The backward analyses by bit sets of the textbooks (Kennedy, "A survey of data flow analysis techniques", 1981), as
//! walks of the tree: of yes and no alone, one turn of a loop is enough, and no body is walked more than twice, however
//! deep it lies. Read `specs/Meets.antt` first.
#![tactic(auto)]

mod walk;

pub use walk::{Backward, sets_after};
