//! Levels of all pairs at once, by one walk and one summary for each pair at each loop.
//!
//! What a statement does to the level of a pair is a monotone map on three levels. The map of a block is a
//! composition, that of an `if` the lower of its blocks', that of a `while` the lowest of no turn, one turn
//! and two turns of its body: in a chain of three more turns go no lower. So nothing is iterated. These are
//! the summaries of Sharir and Pnueli ("Two approaches to interprocedural data flow analysis", 1981), here
//! of statements in place of procedures. Read `specs/Effects` first.
#![tactic(auto)]

mod effect;
pub mod laws;
mod summed;

pub use effect::{Effect, effect_of};
pub use summed::{Summed, summed_may_be_shared};
