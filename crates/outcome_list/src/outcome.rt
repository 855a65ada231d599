//! What a run comes to.
ghost use Rattle.std.specs.Prelude.{◌≡◌, ◌≤◌, ◌++◌, IfOk, OnOk, length, map};
ghost use Rattle.std.specs.List.{range_with_len};
ghost use Rattle.thread_core.specs.Programs.{IsProperProgram};
ghost use Rattle.view_machine.specs.State.{initial_state};
ghost use Rattle.view_machine.specs.Runs.{IsJournalRun, state_after};
ghost use Rattle.outcome_nodes.specs.Nodes.{prints, printed_by};
ghost use Rattle.outcome_nodes.specs.Outcome.{final_outcome_of, values_told};

use crate::found::Outcome;
use crate::values::final_values;
use il_syntax::Program;
use std::alloc::{AllocError, Global};
use values_undef::{Ending, Entry, Event, Journal, NoMemory, Val, ending_of};

/// Puts what an event prints to the end.
fn push_printed(out: &mut Vec<i64>, event: &Event) -> Result<(), AllocError>
    ensures { OnOk result (out.new.items ≡ out.old.items ++ prints event.now) }
{
    match *event {
        Event::Print { v } => out.push(v)?,
        Event::NaRead { .. }
        | Event::NaWrite { .. }
        | Event::Read { .. }
        | Event::Write { .. }
        | Event::Update { .. }
        | Event::Miss { .. }
        | Event::Fence { .. }
        | Event::Fail { .. }
        | Event::FailCompare { .. }
        | Event::Finish
        | Event::Spend => {}
    }
    Ok(())
}

/// What a thread prints in a run.
fn printed_by(alloc: Global, entries: &[Entry], thread: u32) -> Result<Vec<i64>, AllocError>
    ensures { IfOk result (λ out. out.items ≡ printed_by entries.now thread) }
{
    let mut out = Vec::new(alloc);
    for entry in entries {
        if entry.thread == thread {
            push_printed(&mut out, &entry.event)?;
        }
    }
    Ok(out)
}

/// What each of so many threads prints in a run.
fn printed(alloc: Global, entries: &[Entry], threads: u32) -> Result<Vec<Vec<i64>>, AllocError>
    ensures { IfOk result (λ out. map (λ values. values.items) out.items ≡ map (printed_by entries.now) (range_with_len 0 threads)) }
{
    let mut out = Vec::new(alloc);
    for thread in 0..threads {
        out.push(printed_by(alloc, entries, thread)?)?;
    }
    Ok(out)
}

/// The last values, where they are told.
fn values_told(
    alloc: Global,
    p: &Program,
    entries: &[Entry],
    ending: Ending,
) -> Result<Vec<Val>, NoMemory>
    requires proper { IsProperProgram p.now }
    requires run { IsJournalRun p.now entries.now }
    ensures { IfOk result (λ values. values.items ≡ values_told ending (state_after p.now (initial_state p.now) entries.now).memory) }
{
    match ending {
        Ending::Done => final_values(alloc, p, entries),
        Ending::Failed | Ending::Spent => Ok(Vec::new(alloc)),
    }
}

/// What a run comes to. The only error is want of memory.
pub fn outcome_of(alloc: Global, p: &Program, run: &Journal) -> Result<Outcome, NoMemory>
    requires proper { IsProperProgram p.now }
    requires run { IsJournalRun p.now run.now }
    ensures { IfOk result (λ o. o ≡ final_outcome_of p.now run.now) }
{
    let threads = p.threads.len() as u32;
    let ending = ending_of(run, threads);
    let printed = printed(alloc, run.entries.as_slice(), threads)?;
    let values = values_told(alloc, p, run.entries.as_slice(), ending)?;
    Ok(Outcome {
        ending,
        printed,
        values,
    })
}
