//! Laws over the definitions, each the contract of a function that does nothing.
ghost use Rattle.seq_pair.specs.Laws.{PairsStayRelated, PairsStayInStep};

/// Along every list of lawful events the labels of an accepted pair match, the target fails only where
/// the source has failed, the two come to their ends together, and at each release, call and end the
/// target's memory is below the source's.
pub fn pairs_stay_related()
    ensures { PairsStayRelated }
{}

/// And the source waits for what the target waits for, so that each can go on.
pub fn pairs_stay_in_step()
    ensures { PairsStayInStep }
{}
