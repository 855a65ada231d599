//! Journals in which the timestamps of a location are moved up, to make room behind a message.
ghost use Rattle.std.specs.Prelude.{◌≡◌, ◌+◌, ◌^◌, ◌<◌, ◌≤◌, IfOk, map};
ghost use Rattle.memory_likeness.specs.Moved.{opened, moved_stamp, moved_event};
ghost use Rattle.outcome_nodes.specs.Moved.{moved_entry};
ghost use Rattle.outcome_moves.specs.Room.{largest_stamp, AreSmall};

use std::alloc::Global;
use values_undef::{Entry, Event, NoMemory};

/// A timestamp, after room was made for two numbers behind `b`.
fn opened(b: u64, t: u64) -> u64
    requires { t ≤ 2 ^ 60 }
    ensures { result ≡ opened b t }
{
    if b < t { t + 2 } else { t }
}

/// A timestamp of location `z`, after room was made at location `y`.
fn moved_stamp(y: u32, b: u64, z: u32, t: u64) -> u64
    requires { t ≤ 2 ^ 60 }
    ensures { result ≡ moved_stamp y (opened b) z t }
{
    if z == y { opened(b, t) } else { t }
}

/// An event, told with the moved timestamps.
fn moved_event(y: u32, b: u64, event: &Event) -> Event
    requires { largest_stamp event.now ≤ 2 ^ 60 }
    ensures { result ≡ moved_event y (opened b) event.now }
{
    match *event {
        Event::Read { y: z, order, v, to } => Event::Read {
            y: z,
            order,
            v,
            to: moved_stamp(y, b, z, to),
        },
        Event::Write {
            y: z,
            order,
            v,
            from,
            to,
        } => Event::Write {
            y: z,
            order,
            v,
            from: moved_stamp(y, b, z, from),
            to: moved_stamp(y, b, z, to),
        },
        Event::Update {
            y: z,
            order,
            old,
            new,
            read,
            to,
        } => Event::Update {
            y: z,
            order,
            old,
            new,
            read: moved_stamp(y, b, z, read),
            to: moved_stamp(y, b, z, to),
        },
        Event::Miss {
            y: z,
            order,
            old,
            read,
        } => Event::Miss {
            y: z,
            order,
            old,
            read: moved_stamp(y, b, z, read),
        },
        Event::FailCompare { y: z, read } => Event::FailCompare {
            y: z,
            read: moved_stamp(y, b, z, read),
        },
        Event::NaRead { .. }
        | Event::NaWrite { .. }
        | Event::Fence { .. }
        | Event::Print { .. }
        | Event::Fail { .. }
        | Event::Finish
        | Event::Spend => *event,
    }
}

/// The journal with room for a message behind the one that ends at `b`.
pub fn moved_entries(
    alloc: Global,
    y: u32,
    b: u64,
    entries: &[Entry],
) -> Result<Vec<Entry>, NoMemory>
    requires { AreSmall (2 ^ 60) entries.now }
    ensures { IfOk result (λ moved. moved.items ≡ map (moved_entry y (opened b)) entries.now) }
{
    let mut moved = Vec::new(alloc);
    for k in 0..entries.len() {
        let entry = entries[k];
        moved.push(Entry {
            thread: entry.thread,
            silent: entry.silent,
            event: moved_event(y, b, &entry.event),
        })?;
    }
    Ok(moved)
}
