//! What a run comes to: how it ends, and what it prints.
ghost use Rattle.std.specs.Prelude.{◌≡◌, ◌++◌, IfOk, OnOk, map};
ghost use Rattle.values_undef.specs.Journal.{printed};
ghost use Rattle.litmus.specs.Outcome.{as_printed, by_thread, of_thread, outcome_in, printed_in, same_outcome, same_ending};

use std::alloc::{AllocError, Global};
use std::marker::Model;
use values_undef::{Ending, Entry, Event, Journal, MOST_THREADS, NoMemory, ending_of};

/// A printed value with its thread.
#[derive(Clone, Copy, PartialEq, Eq)]
pub struct Printed {
    pub thread: u32,
    pub value: i64,
}

/// What a run comes to: how it ends, and its outputs by thread, those of one thread in their order.
#[derive(Drop)]
pub struct RunOutcome {
    pub ending: Ending,
    pub outputs: Vec<Printed>,
}

impl Model for RunOutcome {
    ghost use Rattle.litmus.specs.Outcome.{EndAndOutputs};

    ghost Value = { EndAndOutputs };

    ghost view = { λ o. record { ending = o.ending; outputs = o.outputs.items } };
}

/// Puts what an entry prints to the end.
fn push_printed(out: &mut Vec<Printed>, entry: &Entry) -> Result<(), AllocError>
    ensures { OnOk result (out.new.items ≡ out.old.items ++ map as_printed (printed entry.now.thread entry.now.event)) }
{
    match entry.event {
        Event::Print { v } => out.push(Printed {
            thread: entry.thread,
            value: v,
        })?,
        Event::NaRead { .. }
        | Event::NaWrite { .. }
        | Event::Read { .. }
        | Event::Write { .. }
        | Event::Update { .. }
        | Event::Miss { .. }
        | Event::Fence { .. }
        | Event::Fail { .. }
        | Event::FailCompare { .. }
        | Event::Finish
        | Event::Spend => {}
    }
    Ok(())
}

/// The outputs of a journal, in their order.
fn outputs(alloc: Global, entries: &[Entry]) -> Result<Vec<Printed>, AllocError>
    ensures { IfOk result (λ out. out.items ≡ printed_in entries.now) }
{
    let mut out = Vec::new(alloc);
    for entry in entries {
        push_printed(&mut out, entry)?;
    }
    Ok(out)
}

/// Puts the outputs of a thread to the end, in their order.
fn push_of_thread(
    out: &mut Vec<Printed>,
    outputs: &[Printed],
    thread: u32,
) -> Result<(), AllocError>
    ensures { OnOk result (out.new.items ≡ out.old.items ++ of_thread thread outputs.now) }
{
    for output in outputs {
        if output.thread == thread {
            out.push(*output)?;
        }
    }
    Ok(())
}

/// Outputs by thread, those of one thread in their order. Those of threads past the sixteenth, which no program has, are left
/// out.
pub fn ordered_outputs(alloc: Global, outputs: &[Printed]) -> Result<Vec<Printed>, NoMemory>
    ensures { IfOk result (λ out. out.items ≡ by_thread outputs.now) }
{
    let mut out = Vec::new(alloc);
    for thread in 0..MOST_THREADS as u32 {
        push_of_thread(&mut out, outputs, thread)?;
    }
    Ok(out)
}

/// What a journal of a program with so many threads comes to. The only error is want of memory.
pub fn outcome_of(alloc: Global, journal: &Journal, threads: u32) -> Result<RunOutcome, NoMemory>
    ensures { IfOk result (λ o. o ≡ outcome_in journal.now threads) }
{
    let ending = ending_of(journal, threads);
    let printed = outputs(alloc, journal.entries.as_slice())?;
    let outputs = ordered_outputs(alloc, printed.as_slice())?;
    Ok(RunOutcome { ending, outputs })
}

/// Whether two runs end alike.
fn same_ending(a: Ending, b: Ending) -> bool
    ensures { result ≡ same_ending a b }
{
    match (a, b) {
        (Ending::Done, Ending::Done)
        | (Ending::Failed, Ending::Failed)
        | (Ending::Spent, Ending::Spent) => true,
        _ => false,
    }
}

/// Whether two outcomes are the same.
pub fn same_outcome(a: &RunOutcome, b: &RunOutcome) -> bool
    ensures { result ≡ same_outcome a.now b.now }
{
    same_ending(a.ending, b.ending) && a.outputs.as_slice() == b.outputs.as_slice()
}
