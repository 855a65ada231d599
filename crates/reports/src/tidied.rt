//! The last program of a chain, tidied, and the report of a run of that.
ghost use Rattle.std.specs.Prelude.{◌≡◌, IfOk};
ghost use Rattle.il_syntax.specs.WellFormed.{IsWellFormed};
ghost use Rattle.view_machine.specs.Runs.{IsJournalRun};
ghost use Rattle.refinement.specs.Playings.{AreFew};
ghost use Rattle.simulation.specs.Chain.{AreAcceptedTargets};
ghost use Rattle.simulation.specs.Conditions.{IsLifted};
ghost use Rattle.reports.specs.Targets.{target_program, IsTidiedOf};
ghost use Rattle.reports.specs.Runs.{IsReported};

use crate::chain::target;
use crate::report::{Report, written};
use flow_summary::Summed;
use il_syntax::Program;
use lift_tidy::lift_tidy;
use message_memory::MessageMemory;
use pass_chain::ProgramChain;
use simulation::lift_chain;
use std::alloc::Global;
use tidy::laws::programs_are_accepted;
use tidy::tidy_program;
use values_undef::{Journal, NoMemory};

/// The last program of a chain, tidied. The only error is want of memory.
#[tactic(auto, using(crate::proofs::Tidying::tidied_of))]
pub fn tidied_target(alloc: Global, chain: &ProgramChain) -> Result<Program, NoMemory>
    requires { IsWellFormed (target_program chain.now) }
    ensures { IfOk result (λ q. IsTidiedOf chain.now q) }
{
    programs_are_accepted();
    tidy_program(alloc, target(chain))
}

/// Lifts a journal of the tidied program to the last program of the chain, and from there to the first.
fn lifted_to_source<M: MessageMemory>(
    alloc: Global,
    chain: &ProgramChain,
    tidied: &Program,
    journal: &Journal,
) -> Result<Journal, NoMemory>
    requires chain { AreAcceptedTargets chain.now }
    requires tidied { IsTidiedOf chain.now tidied.now }
    requires run { IsJournalRun tidied.now journal.now }
    requires few { AreFew journal.now }
    ensures { IfOk result (λ js. IsLifted chain.now.source tidied.now journal.now js) }
{
    let own = lift_tidy::<M>(alloc, target(chain), tidied, journal)?;
    match lift_chain::<M, Summed>(alloc, &Summed, chain, &own)? {
        Some(source) => Ok(source),
        None => Ok(own),
    }
}

/// The report of a run of the tidied last program of a chain, which is lifted to the first.
pub fn reported_tidied<M: MessageMemory>(
    alloc: Global,
    chain: &ProgramChain,
    tidied: &Program,
    journal: &Journal,
) -> Result<Report, NoMemory>
    requires chain { AreAcceptedTargets chain.now }
    requires tidied { IsTidiedOf chain.now tidied.now }
    requires run { IsJournalRun tidied.now journal.now }
    requires few { AreFew journal.now }
    ensures { IfOk result (λ r. IsReported chain.now.source tidied.now journal.now r.bytes.items r.ending) }
{
    let source = lifted_to_source::<M>(alloc, chain, tidied, journal)?;
    written(alloc, tidied, journal, Some(&source))
}
