//! `run`: a run of the optimised program by as many threads as it has.
ghost use Rattle.std.specs.Prelude.{◌<◌, ◌≤◌, ◌-◌, ◌^◌, length, IfOk};
ghost use Rattle.il_syntax.specs.WellFormed.{IsWellFormed};
ghost use Rattle.view_machine.specs.Runs.{IsJournalRun};
ghost use Rattle.reports.specs.Targets.{IsOptimised};
ghost use Rattle.tool.specs.Headline.{IsReportOutput};
ghost use Rattle.tool.specs.Run.{IsThreadedRun};

use crate::answer::{Output, text_refused};
use crate::memory::Memory;
use crate::reporting::told;
use il_parser::parse;
use il_syntax::Program;
use reports::{optimised, target};
use std::alloc::Global;
use std::sync::Wait;
use std::thread::Threads;
use thread_core::laws::well_formed_programs_are_proper;
use threaded_runner::{Gate, run_program};
use values_undef::{Journal, NoMemory};

/// The journal that the threads of a program make.
fn journal<R: Threads + Wait + Sync, G: Gate + Sync>(
    alloc: Global,
    rt: &R,
    p: &Program,
    seed: u64,
    steps: u64,
    gate: &G,
) -> Result<Journal, NoMemory>
    requires well_formed { IsWellFormed p.now }
    requires few { steps ≤ 16384 }
    ensures run { IfOk result (λ j. IsJournalRun p.now j) }
    ensures own { IfOk result (λ j. IsThreadedRun seed steps p.now j) }
{
    well_formed_programs_are_proper();
    run_program::<Memory, G, R>(rt, alloc, p, seed, steps, gate)
}

/// The output of `run` for this input. The gate is called before each access of a thread.
pub(crate) fn output<R: Threads + Wait + Sync, G: Gate + Sync>(
    alloc: Global,
    rt: &R,
    seed: u64,
    steps: u64,
    gate: &G,
    input: &[u8],
) -> Result<Output, NoMemory>
    requires small { length input.now < 2 ^ 32 - 1 }
    requires few { steps ≤ 16384 }
    ensures { IfOk result (λ o. IsReportOutput IsOptimised (IsThreadedRun seed steps) steps input.now o.bytes.items o.status) }
{
    let p = match parse(alloc, input) {
        Ok(p) => p,
        Err(fault) => return text_refused(alloc, input, fault),
    };
    let chain = optimised(alloc, rt, &p)?;
    let journal = journal(alloc, rt, target(&chain), seed, steps, gate)?;
    told(alloc, &chain, &journal)
}
