//! Loads are put before loops, so that the loads in the loops can be forwarded.
//!
//! This is the first half of hoisting a load that a loop doesn't change (Aho, Sethi and Ullman, "Compilers",
//! 1986, on code motion): the load is put in before the loop and not taken out of it, and load forwarding does
//! the rest. It is put in also where no turn would load: a load without an order that races gives an undefined
//! value and doesn't fail, so a load too many does no harm (Cho, Lee, Lee, Hur and Lahav, "Sequential reasoning
//! for optimizing compilers under weak memory concurrency", PLDI 2022). Read `specs/Introduced.antt` first.
#![tactic(auto)]

mod growth;
mod hoist;
pub mod laws;
mod names;
mod wanted;

pub use growth::{Extra, Growth};
pub use hoist::introduce_loads;
