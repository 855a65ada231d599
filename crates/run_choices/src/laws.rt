//! Laws over the definitions, each the contract of a function that does nothing.
ghost use Rattle.run_choices.specs.Laws.{UsedStepsGrow, EndsAreNoted, SpentBudgetsAreNoted, LastEntriesFail, FinishedThreadsAreUnspent, FinishedRunsDoNotFail};

/// What one more entry adds to the steps that a thread has used, to who has ended and for a spent budget,
/// and that a journal ends in a failure exactly where its last entry is one.
#[tactic(auto, using(crate::proofs::Appending::used_more, crate::proofs::Appending::ended_more, crate::proofs::Appending::spent_more, crate::proofs::Appending::fails_more))]
pub fn journals_grow()
    ensures used { UsedStepsGrow }
    ensures ended { EndsAreNoted }
    ensures spent { SpentBudgetsAreNoted }
    ensures fails { LastEntriesFail }
{}

/// Of a run a thread that came to its end was not stopped at the end of its budget, and where each thread came to
/// its end none failed: so the ending of a run tells which of these it is.
#[tactic(auto, using(crate::proofs::Ends::finished_unspent, crate::proofs::Ends::finished_unfailed))]
pub fn ends_are_told()
    ensures unspent { FinishedThreadsAreUnspent }
    ensures unfailed { FinishedRunsDoNotFail }
{}
