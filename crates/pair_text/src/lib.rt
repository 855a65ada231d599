//! The text of two programs in one input: a source, the line `target`, and a target.
//!
//! `specs/Reading.antt` has what an input reads as, and which refusal of another is the first. How a text divides at a line is
//! in `text_parts`.
#![tactic(auto)]

mod fault;
mod input;
pub mod laws;

pub use fault::PairRule;
pub use input::{ProgramPair, read_pair, read_texts};
