//! `outcomes`: all outcomes of a program within a budget, and whether what is expected of them is met.
ghost use Rattle.std.specs.Prelude.{◌≡◌, ◌<◌, ◌-◌, ◌^◌, length, IfOk};
ghost use Rattle.outcomes_session.specs.Session.{HasOutcomesCondition};
ghost use Rattle.tool.specs.Outcomes.{IsOutcomesOutput, IsWrittenOutcomes};

use crate::answer::{Output, refused};
use crate::commands::sampling::verdict_status;
use outcomes_session::{OutcomesAnswer, outcomes_answer};
use std::alloc::Global;
use values_undef::NoMemory;

/// What is written of an answer.
fn written_outcomes(alloc: Global, answer: OutcomesAnswer) -> Result<Output, NoMemory>
    ensures { IfOk result (λ o. IsWrittenOutcomes answer o.bytes.items o.status) }
{
    match answer {
        OutcomesAnswer::Refused { rule, line, column } => refused(alloc, rule.word(), line, column),
        OutcomesAnswer::TooMany => refused(alloc, "S", 1, 1),
        OutcomesAnswer::Told { text, met } => Ok(Output {
            bytes: text.bytes,
            status: verdict_status(met),
        }),
    }
}

/// The output of `outcomes` for this input.
pub(crate) fn output(
    alloc: Global,
    steps: u64,
    states: u64,
    input: &[u8],
) -> Result<Output, NoMemory>
    requires small { length input.now < 2 ^ 32 - 300 }
    requires condition { HasOutcomesCondition steps states }
    ensures { IfOk result (λ o. IsOutcomesOutput steps states input.now o.bytes.items o.status) }
{
    let answer = outcomes_answer(alloc, input, steps, states)?;
    written_outcomes(alloc, answer)
}
