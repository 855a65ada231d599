//! `refute`: whether all outcomes of a target within a budget are its source's, and else one that isn't.
ghost use Rattle.std.specs.Prelude.{◌≡◌, ◌<◌, ◌-◌, ◌^◌, length, IfOk};
ghost use Rattle.outcomes_session.specs.Session.{HasOutcomesCondition};
ghost use Rattle.tool.specs.Refute.{IsRefuteOutput, IsWrittenRefute};

use crate::answer::{Output, refused, written};
use crate::status::Status;
use refute_session::{RefuteAnswer, refute_answer};
use std::alloc::Global;
use values_undef::NoMemory;

/// What is written of an answer.
fn written_refute(alloc: Global, answer: RefuteAnswer) -> Result<Output, NoMemory>
    ensures { IfOk result (λ o. IsWrittenRefute answer o.bytes.items o.status) }
{
    match answer {
        RefuteAnswer::Refused { rule, line, column } => refused(alloc, rule.word(), line, column),
        RefuteAnswer::OtherShape => written(alloc, "refused shape\n", Status::No),
        RefuteAnswer::TooMany => refused(alloc, "S", 1, 1),
        RefuteAnswer::Refines => written(alloc, "refines\n", Status::Done),
        RefuteAnswer::Missed { text } => Ok(Output {
            bytes: text.bytes,
            status: Status::No,
        }),
        RefuteAnswer::Unknown { text } => Ok(Output {
            bytes: text.bytes,
            status: Status::Done,
        }),
    }
}

/// The output of `refute` for this input.
pub(crate) fn output(
    alloc: Global,
    steps: u64,
    states: u64,
    input: &[u8],
) -> Result<Output, NoMemory>
    requires small { length input.now < 2 ^ 32 - 1 }
    requires condition { HasOutcomesCondition steps states }
    ensures { IfOk result (λ o. IsRefuteOutput steps states input.now o.bytes.items o.status) }
{
    let answer = refute_answer(alloc, input, steps, states)?;
    written_refute(alloc, answer)
}
