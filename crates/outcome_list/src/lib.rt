//! The list of the outcomes of a program: what a run comes to, the order of outcomes, the list that some runs make, and
//! whether the outcomes of one program are covered by those of another.
//!
//! The last values of a run are told by its entries, so no run is made again here. Read `specs/Order.antt` first, and then
//! `specs/List.antt` with the clauses of `listed` and `refines`.
#![tactic(auto)]

mod covering;
mod found;
pub mod laws;
mod list;
mod order;
mod outcome;
mod values;

pub use covering::{refines, some_is_spent};
pub use found::{Found, Outcome};
pub use list::listed;
pub use order::compare;
pub use outcome::outcome_of;
