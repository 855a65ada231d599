//! The events of a thread, without their timestamps.
ghost use Rattle.std.specs.Prelude.{◌≡◌, ◌↔◌, ◌==◌, ℕ, ◌<◌, [], ◌∷◌, ◌++◌, if◌then◌else◌, IfOk, OnOk, IsTrue};
ghost use Rattle.memory_likeness.specs.Likeness.{without_stamps};
ghost use Rattle.outcome_nodes.specs.Nodes.{told_by};

use crate::same::is_same_event;
use std::alloc::Global;
use values_undef::{Entry, Event, NoMemory};

/// The event without its timestamps.
fn without_stamps(event: &Event) -> Event
    ensures { result ≡ without_stamps event.now }
{
    match *event {
        Event::Read { y, order, v, .. } => Event::Read { y, order, v, to: 0 },
        Event::Write { y, order, v, .. } => Event::Write {
            y,
            order,
            v,
            from: 0,
            to: 0,
        },
        Event::Update {
            y,
            order,
            old,
            new,
            ..
        } => Event::Update {
            y,
            order,
            old,
            new,
            read: 0,
            to: 0,
        },
        Event::Miss { y, order, old, .. } => Event::Miss {
            y,
            order,
            old,
            read: 0,
        },
        Event::FailCompare { y, .. } => Event::FailCompare { y, read: 0 },
        Event::NaRead { .. }
        | Event::NaWrite { .. }
        | Event::Fence { .. }
        | Event::Print { .. }
        | Event::Fail { .. }
        | Event::Finish
        | Event::Spend => *event,
    }
}

/// Adds the event of an entry, if it is one of the thread.
fn add_event(told: &mut Vec<Event>, entry: &Entry, thread: u32) -> Result<(), NoMemory>
    ensures { OnOk result (told.new.items ≡ told.old.items ++ (if entry.now.thread == thread then without_stamps entry.now.event ∷ [] else [])) }
{
    if entry.thread == thread {
        told.push(without_stamps(&entry.event))?;
    }
    Ok(())
}

/// The events of a thread, in order.
pub fn told_by(alloc: Global, entries: &[Entry], thread: u32) -> Result<Vec<Event>, NoMemory>
    ensures { IfOk result (λ told. told.items ≡ told_by entries.now thread) }
{
    let mut told = Vec::new(alloc);
    for k in 0..entries.len() {
        add_event(&mut told, &entries[k], thread)?;
    }
    Ok(told)
}

/// Whether the events are the same.
fn are_same(a: &[Event], b: &[Event]) -> bool
    ensures { IsTrue result ↔ (a.now ≡ b.now) }
{
    if a.len() != b.len() {
        return false;
    }
    for k in 0..a.len() {
        if !is_same_event(&a[k], &b[k]) {
            return false;
        }
    }
    true
}

/// Whether a thread has the same events in both journals.
fn same_events(alloc: Global, a: &[Entry], b: &[Entry], thread: u32) -> Result<bool, NoMemory>
    ensures { IfOk result (λ same. IsTrue same ↔ (told_by a.now thread ≡ told_by b.now thread)) }
{
    let first = told_by(alloc, a, thread)?;
    let second = told_by(alloc, b, thread)?;
    Ok(are_same(&first, &second))
}

/// Whether each of so many threads has the same events in both journals.
pub fn same_told(alloc: Global, a: &[Entry], b: &[Entry], threads: u32) -> Result<bool, NoMemory>
    ensures { IfOk result (λ same. IsTrue same ↔ ((i : ℕ) → i < threads → told_by a.now i ≡ told_by b.now i)) }
{
    for thread in 0..threads {
        if !same_events(alloc, a, b, thread)? {
            return Ok(false);
        }
    }
    Ok(true)
}
