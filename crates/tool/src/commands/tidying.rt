//! `tidy`: a run of the tidied program by one thread, which plays all of its threads.
ghost use Rattle.std.specs.Prelude.{◌<◌, ◌≤◌, ◌-◌, ◌^◌, length, IfOk};
ghost use Rattle.reports.specs.Targets.{IsTidiedTarget};
ghost use Rattle.tool.specs.Headline.{IsReportOutput};
ghost use Rattle.tool.specs.Walk.{IsWalkOf};

use crate::answer::{Output, text_refused};
use crate::reporting::told_tidied;
use crate::walks::walked;
use il_parser::parse;
use reports::{optimised, tidied_target};
use std::alloc::Global;
use std::thread::Threads;
use values_undef::NoMemory;
use words::Drawing;

/// The output of `tidy` for this input: the last program of the chain is tidied and walked, and its journal is lifted.
pub(crate) fn output<R: Threads + Sync>(
    alloc: Global,
    rt: &R,
    order: &[u32],
    draws: &Drawing,
    steps: u64,
    input: &[u8],
) -> Result<Output, NoMemory>
    requires small { length input.now < 2 ^ 32 - 1 }
    requires some { 1 ≤ steps }
    requires few { steps ≤ 16384 }
    ensures { IfOk result (λ o. IsReportOutput IsTidiedTarget (IsWalkOf order.now draws.now steps) steps input.now o.bytes.items o.status) }
{
    let p = match parse(alloc, input) {
        Ok(p) => p,
        Err(fault) => return text_refused(alloc, input, fault),
    };
    let chain = optimised(alloc, rt, &p)?;
    let tidied = tidied_target(alloc, &chain)?;
    let walk = walked(alloc, &tidied, order, draws, steps)?;
    told_tidied(alloc, &chain, &tidied, &walk.journal)
}
