//! The output for a run of a program.
ghost use Rattle.std.specs.Prelude.{◌≡◌, IfOk};
ghost use Rattle.view_machine.specs.Runs.{IsJournalRun};
ghost use Rattle.refinement.specs.Playings.{AreFew};
ghost use Rattle.simulation.specs.Chain.{AreAcceptedTargets};
ghost use Rattle.reports.specs.Targets.{target_program, IsTidiedOf};
ghost use Rattle.tool.specs.Headline.{IsToldRun};
ghost use Rattle.tool.specs.Statuses.{status_of};

use crate::answer::Output;
use crate::memory::Memory;
use crate::status::status_of;
use il_syntax::Program;
use pass_chain::ProgramChain;
use reports::{Report, reported, reported_tidied};
use std::alloc::Global;
use values_undef::{Journal, NoMemory};

/// The output for a report: its text, with the status of its ending.
pub(crate) fn output_of_report(report: Report) -> Output
    ensures bytes { result.bytes.items ≡ report.bytes.items }
    ensures status { result.status ≡ status_of report.ending }
{
    Output {
        bytes: report.bytes,
        status: status_of(report.ending),
    }
}

/// The output for a run of the last program of a chain, whose journal is lifted to the first.
#[tactic(auto, using(crate::proofs::ReportFacts::is_told))]
pub(crate) fn told(
    alloc: Global,
    chain: &ProgramChain,
    journal: &Journal,
) -> Result<Output, NoMemory>
    requires accepted { AreAcceptedTargets chain.now }
    requires run { IsJournalRun (target_program chain.now) journal.now }
    requires few { AreFew journal.now }
    ensures { IfOk result (λ o. IsToldRun chain.now.source (target_program chain.now) journal.now o.bytes.items o.status) }
{
    let report = reported::<Memory>(alloc, chain, journal)?;
    Ok(output_of_report(report))
}

/// The output for a run of the tidied last program of a chain, whose journal is lifted to the first.
#[tactic(auto, using(crate::proofs::ReportFacts::is_told))]
pub(crate) fn told_tidied(
    alloc: Global,
    chain: &ProgramChain,
    tidied: &Program,
    journal: &Journal,
) -> Result<Output, NoMemory>
    requires chain { AreAcceptedTargets chain.now }
    requires tidied { IsTidiedOf chain.now tidied.now }
    requires run { IsJournalRun tidied.now journal.now }
    requires few { AreFew journal.now }
    ensures { IfOk result (λ o. IsToldRun chain.now.source tidied.now journal.now o.bytes.items o.status) }
{
    let report = reported_tidied::<Memory>(alloc, chain, tidied, journal)?;
    Ok(output_of_report(report))
}
