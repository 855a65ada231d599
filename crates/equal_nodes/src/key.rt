//! A key that equal nodes share, for a table.
ghost use Rattle.std.specs.Prelude.{◌≡◌, ◌==◌, [], ◌∷◌, if◌then◌else◌, map};
ghost use Rattle.std.specs.List.{range_with_len};
ghost use Rattle.memory_likeness.specs.Likeness.{without_stamps};
ghost use Rattle.outcome_nodes.specs.Nodes.{told_by};
ghost use Rattle.equal_nodes.specs.Keys.{mixed, value_number, event_number, thread_key, key_of};

use values_undef::{Entry, Event, Val};

/// The key with one number more.
fn mixed(key: u64, n: u64) -> u64
    ensures { result ≡ mixed key n }
{
    key.wrapping_mul(1_099_511_628_211).wrapping_add(n)
}

fn value_number(v: Val) -> u64
    ensures { result ≡ value_number v }
{
    match v {
        Val::Def(n) => n.unsigned_abs(),
        Val::Undef => 9_223_372_036_854_775_809,
    }
}

/// What an event adds to the key.
fn event_number(event: &Event) -> u64
    ensures { result ≡ event_number event.now }
{
    match *event {
        Event::NaRead { v, .. } | Event::Read { v, .. } | Event::Write { v, .. } => value_number(v),
        Event::NaWrite { version, .. } => version,
        Event::Update { old, .. } | Event::Miss { old, .. } => value_number(old),
        Event::Print { v } => v.unsigned_abs(),
        Event::Fence { .. }
        | Event::Fail { .. }
        | Event::FailCompare { .. }
        | Event::Finish
        | Event::Spend => 0,
    }
}

/// The key with the event of an entry, if it is one of the thread.
fn entry_key(key: u64, entry: &Entry, thread: u32) -> u64
    ensures { result ≡ thread_key key (if entry.now.thread == thread then without_stamps entry.now.event ∷ [] else []) }
{
    if entry.thread == thread {
        return mixed(key, event_number(&entry.event));
    }
    key
}

/// The key with the events of a thread.
fn thread_key(key: u64, entries: &[Entry], thread: u32) -> u64
    ensures { result ≡ thread_key key (told_by entries.now thread) }
{
    let mut after = key;
    for k in 0..entries.len() {
        after = entry_key(after, &entries[k], thread);
    }
    after
}

/// The key of the node in which the run of so many threads ends. It is a function of the events that the node tells.
pub fn key_of(threads: u32, entries: &[Entry]) -> u64
    ensures { result ≡ key_of (map (told_by entries.now) (range_with_len 0 threads)) }
{
    let mut key = 1;
    for thread in 0..threads {
        key = mixed(thread_key(key, entries, thread), 257);
    }
    key
}
