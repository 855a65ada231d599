//! Laws over the definitions, each the contract of a function that does nothing.
ghost use Rattle.outcome_budgets.specs.Budgets.{RunsCanBeCompleted, OutcomesExist, UnstoppedListsAreOfEveryBudget, UnstoppedRunsAreWithin, DoneOutcomesStay, NoneIsStoppedWhereDone, DoneListsAreOfEveryBudget, DoneProgramsEnd, DoneRunsAreOfEveryBudget};

/// Each run within a budget can be gone on with to one that is complete for it.
pub fn runs_can_be_completed()
    ensures { RunsCanBeCompleted }
{}

/// A program has an outcome within each budget.
pub fn outcomes_exist()
    ensures { OutcomesExist }
{}

/// Where no thread is stopped in a run that is complete for a budget, the outcomes within each greater budget are the same,
/// and in no run in which none is stopped does one use more steps.
pub fn unstopped_lists_are_of_every_budget()
    ensures outcomes { UnstoppedListsAreOfEveryBudget }
    ensures runs { UnstoppedRunsAreWithin }
{}

/// An outcome that is done within a budget is one within each greater budget.
pub fn done_outcomes_stay()
    ensures { DoneOutcomesStay }
{}

/// Where each outcome within a budget is done, no thread is stopped, so those within each greater budget are the same, and
/// runs that have all of them have all outcomes within each greater budget.
pub fn done_lists_are_of_every_budget()
    ensures unstopped { NoneIsStoppedWhereDone }
    ensures outcomes { DoneListsAreOfEveryBudget }
    ensures runs { DoneRunsAreOfEveryBudget }
{}

/// A program whose outcomes within a budget are all done comes to its end: no run of it fails, and where no thread is
/// stopped none uses more steps.
pub fn done_programs_end()
    ensures { DoneProgramsEnd }
{}
