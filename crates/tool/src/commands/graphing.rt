//! `graph`: the execution graph of the journal of an input.
ghost use Rattle.std.specs.Prelude.{◌≡◌, ◌<◌, ◌-◌, ◌^◌, length, IfOk};
ghost use Rattle.il_syntax.specs.WellFormed.{IsWellFormed};
ghost use Rattle.replay.specs.Verdicts.{IsVerdict};
ghost use Rattle.view_machine.specs.Runs.{IsJournalRun};
ghost use Rattle.tool.specs.declared.status.Status.TheVariants as status;
ghost use Rattle.tool.specs.Graph.{IsGraphOf, IsGraphOutput, IsGraphedVerdict};

use crate::answer::{Output, refused};
use crate::commands::replaying::{no_entry, other_ending};
use crate::memory::Memory;
use crate::status::Status;
use exec_graph::graph_of;
use graph_text::write_graph;
use il_parser::InputFault;
use il_syntax::Program;
use replay::Verdict;
use replay_text::read_replay;
use std::alloc::Global;
use values_undef::{Ending, Journal, NoMemory};

/// The graph of a journal that is a run.
fn graphed(alloc: Global, p: &Program, journal: &Journal) -> Result<Output, NoMemory>
    requires well_formed { IsWellFormed p.now }
    requires few { length journal.now < 2 ^ 32 }
    requires run { IsJournalRun p.now journal.now }
    ensures written { IfOk result (λ o. IsGraphOf p.now journal.now o.bytes.items) }
    ensures status { IfOk result (λ o. o.status ≡ status.Done) }
{
    let graph = graph_of(alloc, p, journal)?;
    let entries = journal.entries.len() as u64;
    let text = write_graph(alloc, &graph.reads, &graph.races, entries)?;
    Ok(Output {
        bytes: text.bytes,
        status: Status::Done,
    })
}

/// The output for a verdict on a journal that was given with this ending.
fn told(
    alloc: Global,
    p: &Program,
    journal: &Journal,
    given: Ending,
    verdict: Verdict,
) -> Result<Output, NoMemory>
    requires well_formed { IsWellFormed p.now }
    requires few { length journal.now < 2 ^ 32 }
    requires judged { IsVerdict p.now journal.now verdict }
    ensures { IfOk result (λ o. IsGraphedVerdict p.now journal.now given verdict o.bytes.items o.status) }
{
    match verdict {
        Verdict::Run { ending } if ending == given => graphed(alloc, p, journal),
        Verdict::Run { ending } => other_ending(alloc, ending),
        Verdict::NotAStep { entry, why } => no_entry(alloc, entry, why),
    }
}

/// The output of `graph` for this input.
pub(crate) fn output(alloc: Global, input: &[u8]) -> Result<Output, NoMemory>
    requires { length input.now < 2 ^ 32 - 1 }
    ensures { IfOk result (λ o. IsGraphOutput input.now o.bytes.items o.status) }
{
    match read_replay(alloc, input) {
        Ok(read) => {
            let verdict = replay::replay::<Memory>(alloc, &read.program, &read.journal)?;
            told(alloc, &read.program, &read.journal, read.ending, verdict)
        }
        Err(InputFault::Refused { rule, line, column }) => {
            refused(alloc, rule.word(), line, column)
        }
        Err(InputFault::NoMemory) => Err(NoMemory),
    }
}
