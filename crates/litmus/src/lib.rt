//! Many runs of one program, each of a seed of its own, and the outcomes that they come to, after herd's `litmus7` (Alglave,
//! Maranget, Sarkar and Sewell, "Litmus: running tests against hardware"): a sample of runs, and no enumeration.
//!
//! A seed gives the order of the turns and the choices, so it has one run. `specs/Sampled.antt` has that run, `specs/Outcome.antt`
//! what a run comes to, `specs/Table.antt` the table of outcomes. `rayon` shares the seeds out among threads, and the table is
//! the one that one thread makes; how many threads take part isn't claimed.
#![tactic(auto)]

mod driver;
pub mod laws;
mod order;
mod outcome;
mod run;
mod table;

pub use driver::litmus;
pub use outcome::{Printed, RunOutcome, ordered_outputs, outcome_of, same_outcome};
pub use table::{Sample, Samples};
