//! `litmus`: the outcomes of many seeds, and whether what is expected of them is met.
ghost use Rattle.std.specs.Prelude.{◌≡◌, ◌<◌, ◌-◌, ◌^◌, length, IfOk};
ghost use Rattle.litmus_session.specs.Session.{HasLitmusCondition};
ghost use Rattle.tool.specs.Litmus.{IsLitmusOutput, IsWrittenLitmus, verdict_status};

use crate::answer::{Output, refused};
use crate::memory::Memory;
use crate::status::Status;
use litmus_session::{LitmusAnswer, litmus_answer};
use std::alloc::Global;
use std::thread::Threads;
use values_undef::NoMemory;

/// The status of a verdict on all expectations.
pub(crate) fn verdict_status(met: bool) -> Status
    ensures { result ≡ verdict_status met }
{
    if met { Status::Done } else { Status::No }
}

/// What is written of an answer.
fn written_answer(alloc: Global, answer: LitmusAnswer) -> Result<Output, NoMemory>
    ensures { IfOk result (λ o. IsWrittenLitmus answer o.bytes.items o.status) }
{
    match answer {
        LitmusAnswer::Refused { rule, line, column } => refused(alloc, rule.word(), line, column),
        LitmusAnswer::Judged { text, met } => Ok(Output {
            bytes: text.bytes,
            status: verdict_status(met),
        }),
    }
}

/// The output of `litmus` for this input.
pub(crate) fn output<R: Threads + Sync>(
    alloc: Global,
    rt: &R,
    seed: u64,
    seeds: u64,
    steps: u64,
    input: &[u8],
) -> Result<Output, NoMemory>
    requires small { length input.now < 2 ^ 32 - 300 }
    requires condition { HasLitmusCondition seed seeds steps }
    ensures { IfOk result (λ o. IsLitmusOutput seed seeds steps input.now o.bytes.items o.status) }
{
    let answer = litmus_answer::<Memory, R>(alloc, rt, input, seed, seeds, steps)?;
    written_answer(alloc, answer)
}
