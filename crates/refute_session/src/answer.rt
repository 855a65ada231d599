//! The answer to an input.
ghost use Rattle.std.specs.Prelude.{◌<◌, ◌-◌, ◌^◌, length, IfOk};
ghost use Rattle.outcomes_session.specs.Session.{HasOutcomesCondition};
ghost use Rattle.refute_session.specs.Session.{IsRefuteSession};

use crate::comparing::compared;
use il_parser::InputFault;
use pair_text::{PairRule, read_pair};
use std::alloc::Global;
use values_undef::{Bytes, NoMemory};

/// What is answered.
#[derive(Drop)]
pub enum RefuteAnswer {
    /// The input breaks this rule here.
    Refused {
        rule: PairRule,
        line: u32,
        column: u32,
    },
    /// Locations, threads, or names or parameters of functions differ.
    OtherShape,
    /// One of the programs has more nodes than the search may come to.
    TooMany,
    /// No outcome of the target is missed.
    Refines,
    /// The first outcome of the target that is missed is written, and no run of the source is spent.
    Missed {
        text: Bytes,
    },
    /// The first outcome of the target that is missed is written, but some run of the source is spent, so a longer one may have it.
    Unknown {
        text: Bytes,
    },
}

/// The answer to an input of fewer than 2^32 - 1 bytes: its first refusal; or that its programs are of another shape, or that one of
/// them has more than `states` different nodes to which moves lead; or whether each outcome that the target has where each thread has so
/// many steps, and that isn't spent, is covered by one of the source's, and else the first that isn't, with a run that has it. The
/// only error is want of memory.
pub fn refute_answer(
    alloc: Global,
    input: &[u8],
    steps: u64,
    states: u64,
) -> Result<RefuteAnswer, NoMemory>
    requires small { length input.now < 2 ^ 32 - 1 }
    requires condition { HasOutcomesCondition steps states }
    ensures { IfOk result (λ a. IsRefuteSession input.now steps states a) }
{
    match read_pair(alloc, input) {
        Ok(pair) => compared(alloc, &pair.source, &pair.target, steps, states),
        Err(InputFault::Refused { rule, line, column }) => {
            Ok(RefuteAnswer::Refused { rule, line, column })
        }
        Err(InputFault::NoMemory) => Err(NoMemory),
    }
}
