//! Expectations, judged by the outcomes of a table.
ghost use Rattle.std.specs.Prelude.{IfOk};
ghost use Rattle.il_syntax.specs.WellFormed.{IsWellFormed};
ghost use Rattle.litmus_session.specs.Session.{HasLitmusCondition, IsJudgedTable};

use crate::outcomes::{Written, rows};
use il_syntax::Program;
use litmus::litmus;
use litmus_text::{Expectation, push_verdicts};
use message_memory::MessageMemory;
use reports::{optimised, target};
use std::alloc::Global;
use std::thread::Threads;
use values_undef::NoMemory;

/// What is written of a program and its expectations, and whether all of these are met.
#[derive(Drop)]
pub(crate) struct Judgement {
    pub(crate) text: Vec<u8>,
    pub(crate) met: bool,
}

/// The judgement of a program's outcomes.
pub(crate) fn judged<M: MessageMemory, R: Threads + Sync>(
    alloc: Global,
    rt: &R,
    given: &Program,
    expectations: &[Expectation],
    seed: u64,
    seeds: u64,
    steps: u64,
) -> Result<Judgement, NoMemory>
    requires well_formed { IsWellFormed given.now }
    requires condition { HasLitmusCondition seed seeds steps }
    ensures { IfOk result (λ j. IsJudgedTable given.now expectations.now seed seeds steps j.text.items j.met) }
{
    let chain = optimised(alloc, rt, given)?;
    let samples = litmus::<M, R>(rt, alloc, target(&chain), seed, seeds, steps)?;
    let Written { mut text, outcomes } = rows::<M>(alloc, &chain, samples.samples.as_slice())?;
    let met = push_verdicts(alloc, &mut text, expectations, outcomes.as_slice())?;
    Ok(Judgement { text, met })
}
