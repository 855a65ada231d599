//! Laws over the definitions, each the contract of a function that does nothing.
ghost use Rattle.litmus_session.specs.Laws.{VerdictsAreFixed};

/// An input and the seeds fix the table, the verdicts and whether all expectations are met; source journals alone may differ.
pub fn verdicts_are_fixed()
    ensures { VerdictsAreFixed }
{}
