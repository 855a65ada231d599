//! Laws over the definitions, each the contract of a function that does nothing.
ghost use Rattle.outcomes_session.specs.Laws.{DoneListsStay, VerdictsAreOfRuns};

/// `some` is met exactly where some run that is complete for the budget is done with just the outputs that are named and has the last
/// values that are named, and `none` where no run is so.
pub fn verdicts_are_of_runs()
    ensures { VerdictsAreOfRuns }
{}

/// A list of all outcomes within a budget, in which each is done, is that of each greater budget.
pub fn done_lists_stay()
    ensures { DoneListsStay }
{}
