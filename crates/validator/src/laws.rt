//! Laws over the definitions, each the contract of a function that does nothing.
ghost use Rattle.validator.specs.Laws.{AcceptedTargetsAreBeside, EachPairIsJudged, EachPairHasAVerdict};

/// An accepted target has all that runs know of it.
pub fn accepted_targets_are_beside()
    ensures { AcceptedTargetsAreBeside }
{}

/// Each pair of functions is judged: it is accepted, or has one first fault.
#[tactic(auto, using(crate::proofs::EachJudged::each_pair_is_judged))]
pub fn each_pair_is_judged()
    ensures { EachPairIsJudged }
{}

/// Each pair of programs has a verdict.
#[tactic(auto, using(crate::proofs::EachJudged::each_pair_has_a_verdict))]
pub fn each_pair_has_a_verdict()
    ensures { EachPairHasAVerdict }
{}
