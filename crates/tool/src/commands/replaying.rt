//! `replay`: whether the journal of an input is a run of its program.
ghost use Rattle.std.specs.Prelude.{◌≡◌, ◌<◌, ◌-◌, ◌^◌, length, IfOk};
ghost use Rattle.tool.specs.declared.status.Status.TheVariants as status;
ghost use Rattle.tool.specs.Replay.{IsReplayOutput, IsVerdictOutput, ending_word, why_word, other_ending_line, no_entry_line};

use crate::answer::{Output, refused, written};
use crate::memory::Memory;
use crate::status::Status;
use il_parser::InputFault;
use replay::{Verdict, Why};
use replay_text::read_replay;
use std::alloc::Global;
use values_undef::{Ending, NoMemory};

/// How a run ended, as a word.
pub(crate) fn ending_word(ending: Ending) -> &'static str
    ensures { result.now ≡ ending_word ending }
{
    match ending {
        Ending::Done => "done",
        Ending::Failed => "failed",
        Ending::Spent => "spent",
    }
}

fn why_word(why: Why) -> &'static str
    ensures { result.now ≡ why_word why }
{
    match why {
        Why::Thread => "thread",
        Why::After => "after",
        Why::Silent { .. } => "silent",
        Why::Choice => "choice",
        Why::Event { .. } => "event",
    }
}

/// The output for a run that ends so and was given with another ending.
pub(crate) fn other_ending(alloc: Global, ending: Ending) -> Result<Output, NoMemory>
    ensures { IfOk result (λ o. (o.bytes.items ≡ other_ending_line ending) × (o.status ≡ status.No)) }
{
    let text = format!(in alloc; "no end {}\n", ending_word(ending))?;
    written(alloc, text.as_str(), Status::No)
}

/// The output for a journal whose first entry that is no run's is this one.
pub(crate) fn no_entry(alloc: Global, entry: u64, why: Why) -> Result<Output, NoMemory>
    ensures { IfOk result (λ o. (o.bytes.items ≡ no_entry_line entry why) × (o.status ≡ status.No)) }
{
    let text = format!(in alloc; "no entry {entry} {}\n", why_word(why))?;
    written(alloc, text.as_str(), Status::No)
}

/// The output for a verdict on a journal that was given with this ending.
fn told(alloc: Global, given: Ending, verdict: Verdict) -> Result<Output, NoMemory>
    ensures { IfOk result (λ o. IsVerdictOutput given verdict o.bytes.items o.status) }
{
    match verdict {
        Verdict::Run { ending } if ending == given => {
            let text = format!(in alloc; "run {}\n", ending_word(ending))?;
            written(alloc, text.as_str(), Status::Done)
        }
        Verdict::Run { ending } => other_ending(alloc, ending),
        Verdict::NotAStep { entry, why } => no_entry(alloc, entry, why),
    }
}

/// The output of `replay` for this input.
pub(crate) fn output(alloc: Global, input: &[u8]) -> Result<Output, NoMemory>
    requires { length input.now < 2 ^ 32 - 1 }
    ensures { IfOk result (λ o. IsReplayOutput input.now o.bytes.items o.status) }
{
    match read_replay(alloc, input) {
        Ok(read) => {
            let verdict = replay::replay::<Memory>(alloc, &read.program, &read.journal)?;
            told(alloc, read.ending, verdict)
        }
        Err(InputFault::Refused { rule, line, column }) => {
            refused(alloc, rule.word(), line, column)
        }
        Err(InputFault::NoMemory) => Err(NoMemory),
    }
}
