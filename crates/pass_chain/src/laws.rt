//! Laws of the chain, each the contract of a function that does nothing.
ghost use Rattle.pass_chain.specs.Laws.{OptIsOne, OptAllIsOne, OptAllIsWellFormed, ChainsFit, HoistedLoadsAreGone, CountsAreOfSites};

/// A function has one chain.
pub fn opt_is_one()
    ensures { OptIsOne }
{}

/// A program has one chain.
pub fn opt_all_is_one()
    ensures { OptAllIsOne }
{}

/// The five programs of a well-formed one are well-formed.
pub fn opt_all_is_well_formed()
    ensures { OptAllIsWellFormed }
{}

/// What fits a program before fits it after each pass: one namesake, and the program with it in the place of that one
/// is well-formed.
#[tactic(auto, using(crate::proofs::WellFormedChains::chains_fit))]
pub fn chains_fit()
    ensures { ChainsFit }
{}

/// After load forwarding no load of a hoisted location stands in its loop.
#[tactic(auto, using(crate::proofs::HoistedLoads::hoisted_loads_are_gone))]
pub fn hoisted_loads_are_gone()
    ensures { HoistedLoadsAreGone }
{}

/// What is counted of a chain is the number of sites that the passes changed so, and of loads that they put in.
pub fn counts_are_of_sites()
    ensures { CountsAreOfSites }
{}
