//! Laws over the definitions, each the contract of a function that does nothing.
ghost use Rattle.paired_threads.specs.Calls.{CallsBeginPaired, ResultsAreBelow};
ghost use Rattle.paired_threads.specs.Next.{PairsGoOn};
ghost use Rattle.paired_threads.specs.Laws.{NextIsBelow, ThreadsGoOn};

/// A call of an accepted target and the same call of its source go on by one of the cases, and stay
/// beside each other.
pub fn pairs_go_on()
    ensures { PairsGoOn }
{}

/// Calls begin beside each other where their arguments are below.
pub fn calls_begin_paired()
    ensures { CallsBeginPaired }
{}

/// Their results are below.
#[tactic(auto, using(crate::proofs::Calls::results_are_below))]
pub fn results_are_below()
    ensures { ResultsAreBelow }
{}

/// At one statement the source wants what the target wants, with values above, or it fails.
#[tactic(auto, using(crate::proofs::Wants::next_below))]
pub fn next_is_below()
    ensures { NextIsBelow }
{}

/// Threads stay beside each other over silent steps, calls and returns among them.
pub fn threads_go_on()
    ensures { ThreadsGoOn }
{}
