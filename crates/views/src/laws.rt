//! The order of timestamps: what join, raise and zero are in it; and what the calls of a view do to its parts.
ghost use Rattle.views.specs.Laws.{BelowIsReflexive, BelowIsTransitive, BelowIsAntisymmetric, ZeroIsLeast, JoinIsAboveBoth, JoinIsLeast, RaiseIsAbove, RaiseIsLeast, SeeingRises, HearingRises, FencesRise, SeeingKeepsOrder, HearingKeepsOrder, FencesKeepOrder, FencesAcquire};

/// Below is a partial order on the lists of timestamps of one length.
#[tactic(auto, using(crate::proofs::ViewLemmas::below_reflexive, crate::proofs::ViewLemmas::below_transitive, crate::proofs::ViewLemmas::below_antisymmetric))]
pub fn below_is_a_partial_order()
    ensures reflexive { BelowIsReflexive }
    ensures transitive { BelowIsTransitive }
    ensures antisymmetric { BelowIsAntisymmetric }
{}

/// Zero is below all others.
#[tactic(auto, using(crate::proofs::ViewLemmas::zero_below))]
pub fn zero_is_least()
    ensures { ZeroIsLeast }
{}

/// The join of two is the least above both.
#[tactic(auto, using(crate::proofs::ViewLemmas::join_above, crate::proofs::ViewLemmas::joined_below))]
pub fn join_is_the_least_above_both()
    ensures above { JoinIsAboveBoth }
    ensures least { JoinIsLeast }
{}

/// A raised list is the least above the old one with the timestamp at the location.
#[tactic(auto, using(crate::proofs::ViewLemmas::raise_above, crate::proofs::ViewLemmas::raised_below))]
pub fn raise_is_the_least_above()
    ensures above { RaiseIsAbove }
    ensures least { RaiseIsLeast }
{}

/// No call lets a part of a view fall.
pub fn views_rise()
    ensures seen { SeeingRises }
    ensures heard { HearingRises }
    ensures fenced { FencesRise }
{}

/// Each call leaves `rel` below `cur`, and `cur` below `got`.
#[tactic(auto, using(crate::proofs::ThreadViewLemmas::raised_ordered, crate::proofs::ThreadViewLemmas::heard_ordered, crate::proofs::ThreadViewLemmas::fenced_ordered))]
pub fn parts_stay_ordered()
    ensures seen { SeeingKeepsOrder }
    ensures heard { HearingKeepsOrder }
    ensures fenced { FencesKeepOrder }
{}

/// A relaxed read and then an acquire fence are an acquiring read, for a thread that has heard nothing
/// else since its last fence.
#[tactic(auto, using(crate::proofs::ThreadViewLemmas::fences_acquire))]
pub fn fences_acquire()
    ensures { FencesAcquire }
{}
