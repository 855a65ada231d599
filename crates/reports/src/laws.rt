//! Laws on reports, each the contract of a function that does nothing.
ghost use Rattle.reports.specs.Laws.{ReportsReadBack, SourceJournalsReadBack, EndingsTellTheEnd, TargetsAreOne, CompleteRunsAreFew};

/// A report reads as a run of the target, with its ending.
pub fn reports_read_back()
    ensures { ReportsReadBack }
{}

/// The source journal, written as the journal of the program that was given, reads as a run of that, with its own
/// ending.
pub fn source_journals_read_back()
    ensures { SourceJournalsReadBack }
{}

/// A run ends well exactly where every thread has finished, fails exactly where its last entry is a failure, and is
/// spent exactly where it doesn't fail and some thread's last entry is the end of its budget.
pub fn endings_tell_the_end()
    ensures { EndingsTellTheEnd }
{}

/// A program has one optimised target, and one that is tidied.
pub fn targets_are_one()
    ensures { TargetsAreOne }
{}

/// A run that is complete for a budget has steps enough below what lifting takes.
pub fn complete_runs_are_few()
    ensures { CompleteRunsAreFew }
{}
