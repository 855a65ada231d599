//! Levels: what is known of a non-atomic location before each statement, over all paths to it.
//!
//! A pair of a location and an atom is at nothing, held (the location holds the atom's value as far as
//! this thread has seen) or fresh (and this thread has released nothing since it stored it). The table of
//! what each statement does is `specs/Levels`; the level before a site is a meet over all paths, as in
//! Kildall's analysis. That an acquire takes away what is only held, and a release makes held of fresh,
//! is after the conditions of SEQ (Cho et al., "Sequential reasoning for optimizing compilers under weak
//! memory concurrency", PLDI 2022). Read `specs/Levels` first, then `specs/Rows` and `specs/Laws`.
#![tactic(auto)]

mod given;
mod known;
pub mod laws;
mod level;
mod table;
mod transfer;
mod walked;

pub use known::{Known, Row, level_in, meet_rows, push_known, row_after};
pub use level::{Kind, Level};
pub use table::{Facts, Table};
pub use transfer::Transfer;
pub use walked::{Walked, walked_may_be_shared};
