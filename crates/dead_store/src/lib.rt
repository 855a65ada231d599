//! Stores that every path overwrites before they are needed are removed.
//!
//! A store without an order is dead where each path from just after it comes to a store of the same location
//! before a load of it, a release, a call or the end; an acquire may lie between. This is the classical
//! removal of dead stores by a backward analysis (Kennedy, "A survey of data flow analysis techniques", 1981),
//! with the statements that end it chosen for weak memory. Read `specs/Overwritten.antt` and
//! `specs/Undead.antt` first.
#![tactic(auto)]

mod drop;
pub mod laws;
mod walk;

pub use drop::drop_dead_stores;
pub use walk::overwritten_after;
