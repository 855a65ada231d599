//! Laws of functions without their dead stores, each the contract of a function that does nothing.
ghost use Rattle.dead_store.specs.Laws.{UndeadIsOne, UndeadFits};

/// A function has one function without its dead stores.
pub fn undead_is_one()
    ensures { UndeadIsOne }
{}

/// It fits wherever the function fits.
#[tactic(auto, using(crate::proofs::UndeadLaws::undead_fits))]
pub fn undead_fits()
    ensures { UndeadFits }
{}
