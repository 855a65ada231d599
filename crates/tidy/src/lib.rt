//! Registers tidied: constants and copies are propagated, computations of constants are done, and assignments
//! that nothing wants are removed.
//!
//! Read `specs/Known.antt`, `specs/Live.antt`, `specs/Tidied.antt` and `specs/Accepts.antt` first, in this order.
#![tactic(auto)]

mod atoms;
mod judging;
mod known;
pub mod laws;
mod live;
mod passes;
mod programs;
mod propagate;

pub use judging::{Tidiness, judge};
pub use passes::tidy;
pub use programs::tidy_program;
