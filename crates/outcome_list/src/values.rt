//! The last values of a run, told by its entries.
ghost use Rattle.std.specs.Prelude.{◌≡◌, ◌≤◌, ◌++◌, IfOk, OnOk, length, map};
ghost use Rattle.std.specs.List.{range_with_len};
ghost use Rattle.thread_core.specs.Programs.{IsProperProgram};
ghost use Rattle.view_machine.specs.State.{initial_state};
ghost use Rattle.view_machine.specs.Runs.{IsJournalRun, state_after};
ghost use Rattle.outcome_nodes.specs.Outcome.{final_values};
ghost use Rattle.outcome_list.specs.Values.{first_newest, last_value_of, newer, newest_after, newest_at_end, newest_value_of, stored_after, value_at_end};

use il_syntax::Program;
use std::alloc::Global;
use thread_core::declared_values;
use values_undef::{Entry, Event, NoMemory, Val};

/// What is known of the newest message of a location.
#[derive(Clone, Copy)]
struct Newest {
    to: u64,
    value: Val,
}

/// The value of a non-atomic location after an event.
fn stored_after(x: u32, v: Val, event: &Event) -> Val
    ensures { result ≡ stored_after x v event.now }
{
    match *event {
        Event::NaWrite { x: z, v: n, .. } if z == x => n,
        _ => v,
    }
}

/// The newest message of an atomic location after an event.
fn newest_after(y: u32, m: Newest, event: &Event) -> Newest
    ensures { result ≡ newest_after y m event.now }
{
    match *event {
        Event::Write { y: z, v: n, to, .. } if z == y => newer(m, Newest { to, value: n }),
        Event::Update {
            y: z,
            new: n,
            to,
            ..
        } if z == y => newer(m, Newest { to, value: n }),
        _ => m,
    }
}

/// The newer of two messages.
fn newer(m: Newest, n: Newest) -> Newest
    ensures { result ≡ newer m n }
{
    if m.to < n.to { n } else { m }
}

/// The last value of a non-atomic location.
fn value_at_end(x: u32, declared: i64, entries: &[Entry]) -> Val
    ensures { result ≡ value_at_end x (Val.Def declared) entries.now }
{
    let mut v = Val::Def(declared);
    for entry in entries {
        v = stored_after(x, v, &entry.event);
    }
    v
}

/// The value of the newest message of an atomic location.
fn newest_at_end(y: u32, declared: i64, entries: &[Entry]) -> Val
    ensures { result ≡ (newest_at_end y (first_newest declared) entries.now).value }
{
    let mut newest = Newest {
        to: 0,
        value: Val::Def(declared),
    };
    for entry in entries {
        newest = newest_after(y, newest, &entry.event);
    }
    newest.value
}

/// Puts the last values of non-atomic locations to the end.
fn push_values(out: &mut Vec<Val>, declared: &[i64], entries: &[Entry]) -> Result<(), NoMemory>
    requires { length declared.now ≤ 16 }
    ensures { OnOk result (out.new.items ≡ out.old.items ++ map (last_value_of declared.now entries.now) (range_with_len 0 (length declared.now))) }
{
    for x in 0..declared.len() {
        out.push(value_at_end(x as u32, declared[x], entries))?;
    }
    Ok(())
}

/// Puts the values of the newest messages of atomic locations to the end.
fn push_newest(out: &mut Vec<Val>, declared: &[i64], entries: &[Entry]) -> Result<(), NoMemory>
    requires { length declared.now ≤ 16 }
    ensures { OnOk result (out.new.items ≡ out.old.items ++ map (newest_value_of declared.now entries.now) (range_with_len 0 (length declared.now))) }
{
    for y in 0..declared.len() {
        out.push(newest_at_end(y as u32, declared[y], entries))?;
    }
    Ok(())
}

/// The last value of each location, the non-atomic ones first.
pub(crate) fn final_values(
    alloc: Global,
    p: &Program,
    entries: &[Entry],
) -> Result<Vec<Val>, NoMemory>
    requires proper { IsProperProgram p.now }
    requires run { IsJournalRun p.now entries.now }
    ensures { IfOk result (λ values. values.items ≡ final_values (state_after p.now (initial_state p.now) entries.now).memory) }
{
    let na = declared_values(alloc, &p.na)?;
    let atomic = declared_values(alloc, &p.atomic)?;
    let mut values = Vec::new(alloc);
    push_values(&mut values, na.as_slice(), entries)?;
    push_newest(&mut values, atomic.as_slice(), entries)?;
    Ok(values)
}
