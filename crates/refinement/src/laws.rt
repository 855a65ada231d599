//! Laws over the definitions, each the contract of a function that does nothing.
ghost use Rattle.refinement.specs.Laws.{RefinesIsReflexive, RefinesIsTransitive, FailuresAreKept, OutputsAreKept, FailingEnds, EndingsAreKept, RunsStopAtFailure};
ghost use Rattle.refinement.specs.Books.{BooksBegin, BooksOpen, SilentStepsAreCarried, QuietStepsAreRecorded, EventsAreRecorded, NewsAreLeftOut, BooksRefine, FailuresRefine};

/// Each journal refines itself.
#[tactic(auto, using(crate::proofs::Refining::refines_refl))]
pub fn refines_is_reflexive()
    ensures { RefinesIsReflexive }
{}

/// To refine is transitive where nothing stands after a failure.
#[tactic(auto, using(crate::proofs::Refining::refines_trans))]
pub fn refines_is_transitive()
    ensures { RefinesIsTransitive }
{}

/// Where the target ends in a failure, the source does.
#[tactic(auto, using(crate::proofs::Refining::failures_kept))]
pub fn failures_are_kept()
    ensures { FailuresAreKept }
{}

/// The same is printed, or a beginning of it and the source fails.
#[tactic(auto, using(crate::proofs::Printing::outputs_kept))]
pub fn outputs_are_kept()
    ensures { OutputsAreKept }
{}

/// A journal ends in a failure exactly where its last entry is one.
pub fn failing_ends()
    ensures { FailingEnds }
{}

/// The ending is the same, or the source fails.
#[tactic(auto, using(crate::proofs::Ends::endings_kept))]
pub fn endings_are_kept()
    ensures { EndingsAreKept }
{}

/// In a run a failing entry is the last.
#[tactic(auto, using(crate::proofs::Counting::runs_stop))]
pub fn runs_stop_at_failure()
    ensures { RunsStopAtFailure }
{}

/// The books at the start.
#[tactic(auto, using(crate::proofs::Keeping::books_begin))]
pub fn books_begin()
    ensures { BooksBegin }
{}

/// The books at the beginning of an entry.
#[tactic(auto, using(crate::proofs::Keeping::books_open))]
pub fn books_open()
    ensures { BooksOpen }
{}

/// A silent step is answered by a silent step.
#[tactic(auto, using(crate::proofs::Keeping::silent_carried))]
pub fn silent_steps_are_carried()
    ensures { SilentStepsAreCarried }
{}

/// A silent step is answered by an access to a non-atomic location.
pub fn quiet_steps_are_recorded()
    ensures { QuietStepsAreRecorded }
{}

/// An event is answered by one that it stands below.
pub fn events_are_recorded()
    ensures { EventsAreRecorded }
{}

/// A load of the other program alone is answered by nothing.
pub fn news_are_left_out()
    ensures { NewsAreLeftOut }
{}

/// Books that are closed give a journal that is refined.
#[tactic(auto, using(crate::proofs::Keeping::books_refine))]
pub fn books_refine()
    ensures { BooksRefine }
{}

/// A failure gives a journal that is refined.
pub fn failures_refine()
    ensures { FailuresRefine }
{}
