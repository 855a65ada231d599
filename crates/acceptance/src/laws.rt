//! Laws of acceptance, each the contract of a function that does nothing.
ghost use Rattle.acceptance.specs.Laws.{KnownLoadsAreAccepted, ForwardedIsAccepted, DeadStoresAreAccepted, UndeadIsAccepted, NewLoadsAreAccepted, IntroducedIsAccepted};

/// Loads turned into atoms that are known are accepted.
pub fn known_loads_are_accepted()
    ensures { KnownLoadsAreAccepted }
{}

/// A function that was forwarded is accepted.
pub fn forwarded_is_accepted()
    ensures { ForwardedIsAccepted }
{}

/// Dead stores that became a `skip` are accepted.
#[tactic(auto, using(crate::proofs::Removal::dead_stores_are_accepted))]
pub fn dead_stores_are_accepted()
    ensures { DeadStoresAreAccepted }
{}

/// A function without its dead stores is accepted.
#[tactic(auto, using(crate::proofs::Removal::undead_is_accepted))]
pub fn undead_is_accepted()
    ensures { UndeadIsAccepted }
{}

/// New loads before loops are accepted.
#[tactic(auto, using(crate::proofs::Growth::new_loads_are_accepted))]
pub fn new_loads_are_accepted()
    ensures { NewLoadsAreAccepted }
{}

/// A function with loads hoisted before its loops is accepted.
#[tactic(auto, using(crate::proofs::Introduction::introduced_is_accepted))]
pub fn introduced_is_accepted()
    ensures { IntroducedIsAccepted }
{}
