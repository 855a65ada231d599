//! Laws of functions that are changed in place, each the contract of a function that does nothing.
ghost use Rattle.rewriting.specs.Laws.{ChangedIsOne, SitesStay, ChangedFits};

/// Changes that agree on the statements of a function make one function of it.
#[tactic(auto, using(crate::proofs::Changes::changed_is_one))]
pub fn changed_is_one()
    ensures { ChangedIsOne }
{}

/// All sites stay.
#[tactic(auto, using(crate::proofs::Leaves::sites_stay))]
pub fn sites_stay()
    ensures { SitesStay }
{}

/// A changed function fits where the first one did, if each new statement fits.
#[tactic(auto, using(crate::proofs::Changes::changed_fits))]
pub fn changed_fits()
    ensures { ChangedFits }
{}
