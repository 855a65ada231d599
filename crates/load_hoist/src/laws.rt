//! Laws of introduced loads, each the contract of a function that does nothing.
ghost use Rattle.load_hoist.specs.Laws.{HoistedPairsAreKnown, IntroducedIsWellHoisted, NextNumberIsLeastFree, IntroducedIsOne, IntroducedFits};

/// The pair of a load that was put before a loop is above nothing in the loop's body.
#[tactic(auto, using(crate::proofs::HoistLaws::hoisted_pairs_are_known))]
pub fn hoisted_pairs_are_known()
    ensures { HoistedPairsAreKnown }
{}

/// Introduction makes code whose hoisted pairs are kept.
#[tactic(auto, using(crate::proofs::IntroducedLaws::introduced_is_well_hoisted))]
pub fn introduced_is_well_hoisted()
    ensures { IntroducedIsWellHoisted }
{}

/// The number of a new name is the least one whose name nothing has.
pub fn next_number_is_least_free()
    ensures { NextNumberIsLeastFree }
{}

/// A function has one function with its loads put in.
#[tactic(auto, using(crate::proofs::IntroducedFits::introduced_is_one))]
pub fn introduced_is_one()
    ensures { IntroducedIsOne }
{}

/// It fits where the function fits.
pub fn introduced_fits()
    ensures { IntroducedFits }
{}
