//! Laws over the definitions, each the contract of a function that does nothing.
ghost use Rattle.view_machine.specs.OneView.{OneViewRunsAreRuns};
ghost use Rattle.view_machine.specs.Reaching.{InitialStatesAreReached, StepsKeepReached, EventsKeepReached};
ghost use Rattle.view_machine.specs.Lengths.{EntriesAreOfThreads, RunsAreShort};
ghost use Rattle.view_machine.specs.Merged.{MergedHistoriesLead, MergedHistoriesAsk};
ghost use Rattle.view_machine.specs.Asking.{StatementsHaveTheirAccesses};
ghost use Rattle.view_machine.specs.Laws.{FailingEntriesAreLast, EndingEntriesAreLast, StatesAreWhole, RunsLead, RunsSplit, RunStatesSplit, RunsGoOn, OutputsAreTheRuns, RunVersionsAreFew, RunsHaveRoom, SilentStepsAreLocal, MergedHistoriesRun};

/// An entry that fails is the last of a run.
#[tactic(auto, using(crate::proofs::RunLaws::failure_last))]
pub fn failures_are_last()
    ensures { FailingEntriesAreLast }
{}

/// An entry that ends its thread is the last of that thread.
#[tactic(auto, using(crate::proofs::Ends::end_last))]
pub fn ends_are_last()
    ensures { EndingEntriesAreLast }
{}

/// Each state of a run is whole: its memory is well-formed, its views are closed in it, and its
/// threads stand in the program.
pub fn states_are_whole()
    ensures { StatesAreWhole }
{}

/// A journal run from the front is a run to the state that it leads to.
#[tactic(auto, using(crate::proofs::RunLaws::runs_lead))]
pub fn runs_lead()
    ensures { RunsLead }
{}

/// Entries after others are a run from the state where those end, and each run is cut at each entry.
#[tactic(auto, using(crate::proofs::RunLaws::runs_split))]
pub fn runs_split()
    ensures { RunsSplit }
{}

/// The state after a journal is the one after its second part from the one after its first.
#[tactic(auto, using(crate::proofs::RunLaws::states_split))]
pub fn states_split()
    ensures { RunStatesSplit }
{}

/// A run goes on by an entry from its end.
pub fn runs_go_on()
    ensures { RunsGoOn }
{}

/// What the memory has printed is what the journal prints.
#[tactic(auto, using(crate::proofs::RunLaws::outputs_printed))]
pub fn outputs_are_the_journals()
    ensures { OutputsAreTheRuns }
{}

/// A version is at most the number of entries before it.
#[tactic(auto, using(crate::proofs::Versions::versions_are_few))]
pub fn versions_are_few()
    ensures { RunVersionsAreFew }
{}

/// After fewer than 2^60 entries there is a number for a further version of each location.
#[tactic(auto, using(crate::proofs::Versions::runs_have_room))]
pub fn runs_have_room()
    ensures { RunsHaveRoom }
{}

/// Silent steps of a thread alone are steps of the machine, and change nothing but its local.
#[tactic(auto, using(crate::proofs::Merging::silent_steps_local))]
pub fn silent_steps_are_local()
    ensures { SilentStepsAreLocal }
{}

/// Where the calls are a history of one memory, and each thread's calls follow its code, their journal
/// is a run.
#[tactic(auto, using(crate::proofs::Merging::merged))]
pub fn merged_histories_run()
    ensures { MergedHistoriesRun }
{}

/// For a program without a fence a journal is a run of the machine exactly where it is a run of the
/// machine in which a thread has one view.
#[tactic(auto, using(crate::proofs::OneViewRuns::one_view_runs))]
pub fn one_view_runs_are_runs()
    ensures { OneViewRunsAreRuns }
{}

/// A program begins in a state of a run, and each step and each event leads from one to one.
pub fn steps_keep_states_whole()
    ensures first { InitialStatesAreReached }
    ensures step { StepsKeepReached }
    ensures event { EventsKeepReached }
{}

/// A run has at most an entry for each step that a thread used, and one more that ends the thread.
#[tactic(auto, using(crate::proofs::Counting::entries_of_threads, crate::proofs::Counting::runs_short))]
pub fn runs_are_short()
    ensures threads { EntriesAreOfThreads }
    ensures short { RunsAreShort }
{}

/// The run of a merged history leads to its memory and views, and before each call its thread asks for
/// the call's access.
#[tactic(auto, using(crate::proofs::Merging::merged_leads, crate::proofs::Merging::ask_before))]
pub fn merged_histories_lead()
    ensures lead { MergedHistoriesLead }
    ensures ask { MergedHistoriesAsk }
{}

/// What a statement asks for acquires, releases and writes as the statement does.
#[tactic(auto, using(crate::proofs::Asking::has_access))]
pub fn statements_have_their_accesses()
    ensures { StatementsHaveTheirAccesses }
{}
