//! Laws over the definitions, each the contract of a function that does nothing.
ghost use Rattle.refute_session.specs.Laws.{MissedRunsAreNotTheSources, RefinedRunsAreTheSources, UnknownRunsAreNotYetTheSources};

/// Where the answer is `Refines`, each run of the target that is complete for the budget, and done or failed, has a run of the source,
/// complete for the budget, that has its outcome or has failed with beginnings of its outputs.
pub fn refined_runs_are_the_sources()
    ensures { RefinedRunsAreTheSources }
{}

/// Where it is `Missed`, the outcome and the journal that are written are those of a run of the target, complete for the budget, and no
/// run of the source that is complete for the budget has that outcome, or has failed with beginnings of its outputs, or is spent.
pub fn missed_runs_are_not_the_sources()
    ensures { MissedRunsAreNotTheSources }
{}

/// Where it is `Unknown`, no run of the source within the budget has that outcome, or has failed with beginnings of its outputs, but
/// one is spent.
pub fn unknown_runs_are_not_yet_the_sources()
    ensures { UnknownRunsAreNotYetTheSources }
{}
