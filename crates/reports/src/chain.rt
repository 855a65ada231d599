//! The chain of a program, and the report of a run of the last program in it.
ghost use Rattle.std.specs.Prelude.{◌≡◌, IfOk};
ghost use Rattle.il_syntax.specs.WellFormed.{IsWellFormed};
ghost use Rattle.view_machine.specs.Runs.{IsJournalRun};
ghost use Rattle.refinement.specs.Playings.{AreFew};
ghost use Rattle.simulation.specs.Chain.{AreAcceptedTargets};
ghost use Rattle.reports.specs.Targets.{target_program, IsChainOf};
ghost use Rattle.reports.specs.Runs.{IsReported};

use crate::report::{Report, written};
use flow_summary::Summed;
use il_syntax::Program;
use message_memory::MessageMemory;
use parallel_driver::optimise;
use pass_chain::ProgramChain;
use simulation::lift_chain;
use std::alloc::Global;
use std::thread::Threads;
use values_undef::{Journal, NoMemory};

/// The program that runs in the place of the first of a chain: the last.
pub fn target(chain: &ProgramChain) -> &Program
    ensures { result.now ≡ target_program chain.now }
{
    &chain.undead
}

/// The chain of the program that was given, along which journals can be lifted.
#[tactic(auto, using(crate::proofs::Chains::is_chain))]
pub fn optimised<R: Threads + Sync>(
    alloc: Global,
    rt: &R,
    given: &Program,
) -> Result<ProgramChain, NoMemory>
    requires { IsWellFormed given.now }
    ensures { IfOk result (λ c. IsChainOf given.now c) }
{
    optimise(rt, alloc, &Summed, given)
}

/// The report of a run of the last program of a chain, which is lifted to the first.
pub fn reported<M: MessageMemory>(
    alloc: Global,
    chain: &ProgramChain,
    journal: &Journal,
) -> Result<Report, NoMemory>
    requires accepted { AreAcceptedTargets chain.now }
    requires run { IsJournalRun (target_program chain.now) journal.now }
    requires few { AreFew journal.now }
    ensures { IfOk result (λ r. IsReported chain.now.source (target_program chain.now) journal.now r.bytes.items r.ending) }
{
    let source = lift_chain::<M, Summed>(alloc, &Summed, chain, journal)?;
    written(alloc, target(chain), journal, source.as_ref())
}
