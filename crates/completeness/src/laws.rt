//! Laws that nothing is left out, each the contract of a function that does nothing.
ghost use Rattle.completeness.specs.Chains.{EachFunctionHasAChain, EachProgramHasAChain};
ghost use Rattle.completeness.specs.Laws.{TargetsBesideAreAccepted};

/// A target that stands beside its source, with all that runs know of an accepted one, is accepted.
pub fn targets_beside_are_accepted()
    ensures { TargetsBesideAreAccepted }
{}

/// Each function has a chain, and each program: what the four passes make is defined of all of them.
#[tactic(auto, using(crate::proofs::Chains::each_function_has_a_chain, crate::proofs::Chains::each_program_has_a_chain))]
pub fn each_program_has_a_chain()
    ensures function { EachFunctionHasAChain }
    ensures program { EachProgramHasAChain }
{}
