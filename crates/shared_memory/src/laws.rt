//! Laws over the definitions, each the contract of a function that does nothing.
ghost use Rattle.shared_memory.specs.Laws.{HistoriesAreWoven, FailedMemoriesEnd, ViewsWait};

/// A history is woven of each thread's calls, by the threads of its journal.
#[tactic(auto, using(crate::proofs::Calls::woven))]
pub fn histories_are_woven()
    ensures { HistoriesAreWoven }
{}

/// A memory has failed by the last call alone.
#[tactic(auto, using(crate::proofs::Histories::failed_memories_end))]
pub fn failed_memories_end()
    ensures { FailedMemoriesEnd }
{}

/// The calls of others leave the view of a thread.
#[tactic(auto, using(crate::proofs::Histories::view_stays))]
pub fn views_wait()
    ensures { ViewsWait }
{}
