//! What holds of two related memories.
ghost use Rattle.memory_relation.specs.States.{AccessesAreAnswered, StatesGoOn, OpeningStatesAreRelated};
ghost use Rattle.memory_relation.specs.Laws.{AtomicAccessesAreAnswered, PlainAccessesAreAnswered, FencesAreAnswered, ChoicesAreFound, ReadsAreBelow, LoadsAreAnswered, StoresAreAnswered, StoresAreRelated, StoresSettle, StoresAreBlocked, StoresAreRemoved, OpeningsAreRelated, PendingFollows};

/// An atomic access of the target is answered by the source's.
pub fn atomic_accesses_are_answered()
    ensures { AtomicAccessesAreAnswered }
{}

/// An output, an end and a failure are answered.
pub fn plain_accesses_are_answered()
    ensures { PlainAccessesAreAnswered }
{}

/// The source's choice is the target's where that is legal, and else the message alone.
#[tactic(auto, using(crate::proofs::Atomic::choices_found))]
pub fn choices_are_found()
    ensures { ChoicesAreFound }
{}

/// What the target reads is below what the source reads.
#[tactic(auto, using(crate::proofs::NonAtomic::reads_below))]
pub fn reads_are_below()
    ensures { ReadsAreBelow }
{}

/// A load is answered.
#[tactic(auto, using(crate::proofs::NonAtomic::loads_answered))]
pub fn loads_are_answered()
    ensures { LoadsAreAnswered }
{}

/// A store is answered, whoever has the location pending.
pub fn stores_are_answered()
    ensures { StoresAreAnswered }
{}

/// A store to a location that nobody has pending is made on both sides.
pub fn stores_are_related()
    ensures { StoresAreRelated }
{}

/// A store to a location that the thread has pending settles it.
pub fn stores_settle()
    ensures { StoresSettle }
{}

/// A store to a location that another thread has pending is a race in the source.
#[tactic(auto, using(crate::proofs::Stores::stores_blocked))]
pub fn stores_are_blocked()
    ensures { StoresAreBlocked }
{}

/// A store of the source alone fails, or leaves the location pending.
pub fn stores_are_removed()
    ensures { StoresAreRemoved }
{}

/// One declared memory is related to itself.
pub fn openings_are_related()
    ensures { OpeningsAreRelated }
{}

/// Each access of the target is answered by the source's.
pub fn accesses_are_answered()
    ensures { AccessesAreAnswered }
{}

/// States stay related where one thread goes on.
pub fn states_go_on()
    ensures { StatesGoOn }
{}

/// One declared state is related to itself.
pub fn opening_states_are_related()
    ensures { OpeningStatesAreRelated }
{}

/// What a thread has pending follows its stores.
#[tactic(auto, using(crate::proofs::Stores::pending_follows))]
pub fn pending_follows()
    ensures { PendingFollows }
{}

/// A fence is answered.
#[tactic(auto, using(crate::proofs::Atomic::fences_answered))]
pub fn fences_are_answered()
    ensures { FencesAreAnswered }
{}
