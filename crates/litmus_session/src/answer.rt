//! The answer to an input.
ghost use Rattle.std.specs.Prelude.{◌<◌, ◌-◌, ◌^◌, length, IfOk};
ghost use Rattle.litmus_session.specs.Session.{HasLitmusCondition, IsLitmusSession};

use crate::judging::judged;
use il_parser::InputFault;
use litmus_text::{LitmusRule, read_litmus};
use message_memory::MessageMemory;
use std::alloc::Global;
use std::thread::Threads;
use values_undef::{Bytes, NoMemory};

/// What is answered.
#[derive(Drop)]
pub enum LitmusAnswer {
    /// The input breaks this rule here.
    Refused {
        rule: LitmusRule,
        line: u32,
        column: u32,
    },
    /// The outcomes and the verdicts are written, and whether all expectations are met.
    Judged {
        text: Bytes,
        met: bool,
    },
}

/// The answer to an input of fewer than 2^32 - 300 bytes: its first refusal; or the outcomes of so many seeds, from `seed` on, of the
/// last program of its chain, each with its journal and the journal of the given program that explains it, and a line for each
/// expectation. The only error is want of memory.
pub fn litmus_answer<M: MessageMemory, R: Threads + Sync>(
    alloc: Global,
    rt: &R,
    input: &[u8],
    seed: u64,
    seeds: u64,
    steps: u64,
) -> Result<LitmusAnswer, NoMemory>
    requires small { length input.now < 2 ^ 32 - 300 }
    requires condition { HasLitmusCondition seed seeds steps }
    ensures { IfOk result (λ a. IsLitmusSession input.now seed seeds steps a) }
{
    match read_litmus(alloc, input, false) {
        Ok(read) => {
            let expectations = read.expectations.as_slice();
            let judged = judged::<M, R>(
                alloc,
                rt,
                &read.program,
                expectations,
                seed,
                seeds,
                steps,
            )?;
            Ok(LitmusAnswer::Judged {
                text: Bytes { bytes: judged.text },
                met: judged.met,
            })
        }
        Err(InputFault::Refused { rule, line, column }) => {
            Ok(LitmusAnswer::Refused { rule, line, column })
        }
        Err(InputFault::NoMemory) => Err(NoMemory),
    }
}
