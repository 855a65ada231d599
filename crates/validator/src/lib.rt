//! Whether one function may stand for another: a target is walked beside its source, and along all paths of the
//! merged code turned loads are known and removed stores are made again before anyone could see it.
//!
//! Read `specs/Roles.antt` and `Walk.antt` for what stands beside what, `Merged.antt`, and `Faults.antt` with the
//! rules V1 to V7; then `Programs.antt` for whole programs, and `Accepted.antt` for what runs of both stand on.
#![tactic(auto)]

mod fault;
mod judge;
pub mod laws;
mod merged;
mod pending;
mod programs;
mod role;
mod shape;
mod told;
mod walk;

pub use fault::{Fault, Judged};
pub use judge::validate;
pub use programs::{Verdict, validate_programs};
pub use role::Role;
pub use shape::same_shape;
