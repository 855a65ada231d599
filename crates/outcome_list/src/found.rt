//! Outcomes, and the runs that have them.
use std::marker::Model;
use values_undef::{Ending, Journal, Val};

/// What a run comes to: how it ends, what each thread has printed, and where it is done the last value of each location, the
/// non-atomic ones first.
#[derive(Drop)]
pub struct Outcome {
    pub ending: Ending,
    pub printed: Vec<Vec<i64>>,
    pub values: Vec<Val>,
}

impl Model for Outcome {
    ghost use Rattle.std.specs.Prelude.{map};
    ghost use Rattle.outcome_nodes.specs.Outcome.{FinalOutcome};

    ghost Value = { FinalOutcome };

    ghost view = { λ o. record { ending = o.ending; printed = map (λ values. values.items) o.printed.items; values = o.values.items } };
}

/// An outcome with a run that has it.
#[derive(Drop)]
pub struct Found {
    pub outcome: Outcome,
    pub journal: Journal,
}
