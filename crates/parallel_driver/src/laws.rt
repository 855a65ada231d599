//! Laws of chains, each the contract of a function that does nothing.
ghost use Rattle.parallel_driver.specs.Neighbours.{ChainsAreAccepted};

/// The neighbouring programs of each chain are of one shape, and each of their function pairs is accepted.
pub fn chains_are_accepted()
    ensures { ChainsAreAccepted }
{}
