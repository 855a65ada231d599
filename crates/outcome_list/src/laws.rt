//! Laws over the definitions, each the contract of a function that does nothing.
ghost use Rattle.outcome_list.specs.Laws.{CoversAsSaid, MissedAsSaid, OutcomesAreOrdered, OutcomesHaveTheirPlaces};

/// The order of outcomes is total, and outcomes at one place of it are equal.
#[tactic(auto, using(crate::proofs::Orders::outcomes_total, crate::proofs::Orders::outcomes_equal))]
pub fn outcomes_are_ordered()
    ensures total { OutcomesAreOrdered }
    ensures places { OutcomesHaveTheirPlaces }
{}

/// An outcome covers itself, and where it has failed each in which each thread has begun with what it has printed; no other.
#[tactic(auto, using(crate::proofs::Covers::covers_as_said))]
pub fn failed_outcomes_cover_what_they_begin()
    ensures { CoversAsSaid }
{}

/// An outcome of the target is missed exactly where it isn't spent and no outcome of the source covers it.
#[tactic(auto, using(crate::proofs::Covers::missed_as_said))]
pub fn missed_outcomes_are_covered_by_none()
    ensures { MissedAsSaid }
{}
