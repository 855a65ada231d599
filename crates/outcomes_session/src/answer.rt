//! The answer to an input.
ghost use Rattle.std.specs.Prelude.{◌<◌, ◌-◌, ◌^◌, length, IfOk};
ghost use Rattle.outcomes_session.specs.Session.{HasOutcomesCondition, IsOutcomesSession};

use crate::telling::{Telling, tell};
use il_reader::InputFault;
use litmus_text::{LitmusRule, read_litmus};
use std::alloc::Global;
use values_undef::{Bytes, NoMemory};

/// What is answered.
#[derive(Drop)]
pub enum OutcomesAnswer {
    /// The input breaks this rule here.
    Refused {
        rule: LitmusRule,
        line: u32,
        column: u32,
    },
    /// The program has more nodes than the search may come to.
    TooMany,
    /// The outcomes and the verdicts are written, and whether all expectations are met.
    Told {
        text: Bytes,
        met: bool,
    },
}

/// The answer to an input of fewer than 2^32 - 300 bytes: its first refusal; or all outcomes that its program has where each thread
/// has so many steps, each with a run that has it, and a line for each expectation. `TooMany` comes exactly where moves lead to
/// more than `states` different nodes. The only error is want of memory.
pub fn outcomes_answer(
    alloc: Global,
    input: &[u8],
    steps: u64,
    states: u64,
) -> Result<OutcomesAnswer, NoMemory>
    requires small { length input.now < 2 ^ 32 - 300 }
    requires condition { HasOutcomesCondition steps states }
    ensures { IfOk result (λ a. IsOutcomesSession input.now steps states a) }
{
    match read_litmus(alloc, input, true) {
        Ok(read) => match tell(
            alloc,
            &read.program,
            read.expectations.as_slice(),
            steps,
            states,
        )? {
            Telling::TooMany => Ok(OutcomesAnswer::TooMany),
            Telling::Told { text, met } => Ok(OutcomesAnswer::Told { text, met }),
        },
        Err(InputFault::Refused { rule, line, column }) => {
            Ok(OutcomesAnswer::Refused { rule, line, column })
        }
        Err(InputFault::NoMemory) => Err(NoMemory),
    }
}
