//! The accesses that a thread may make where a run ends, each with the run that it leads to.
ghost use Rattle.std.specs.Prelude.{◌≡◌, ℕ, ◌+◌, ◌^◌, ◌<◌, ◌≤◌, true, false, None, [], ◌∷◌, ◌++◌, if◌then◌else◌, IfOk, IsNone, IsSome, IfSome, length, map};
ghost use Rattle.values_undef.specs.Access.{leaves_choice, is_failure};
ghost use Rattle.memory_likeness.specs.Answering.{puts_in};
ghost use Rattle.memory_likeness.specs.Moved.{opened};
ghost use Rattle.message_memory.specs.Memory.{Memory, messages, message_at, IsWellFormedMemory};
ghost use Rattle.message_memory.specs.Candidates.{location_of};
ghost use Rattle.views.specs.ThreadView.{ThreadView};
ghost use Rattle.message_memory.specs.Step.{IsProper, succeeds, step_result};
ghost use Rattle.thread_core.specs.Programs.{IsProperProgram, IsProperAccess};
ghost use Rattle.view_machine.specs.State.{next_in};
ghost use Rattle.view_machine.specs.Held.{state_in, IsOf};
ghost use Rattle.outcome_nodes.specs.Moved.{moved_entry};
ghost use Rattle.outcome_nodes.specs.Nodes.{Asks, IsMove};
ghost use Rattle.outcome_nodes.specs.Standing.{node_of, IsNodeRun};
ghost use Rattle.outcome_moves.specs.Room.{AreSmall};
ghost use Rattle.outcome_moves.specs.Behind.{update_behind, event_behind, choice_close};
ghost use Rattle.outcome_moves.specs.Ends.{end_in};
ghost use Rattle.outcome_moves.specs.Moves.{last_state, silent_there, IsMoved, IsTried, IsSmallMove, HasSmallMove};

use crate::room::moved_entries;
use il_syntax::Program;
use message_memory::{Histories, PlainMemory};
use std::alloc::Global;
use thread_core::Next;
use values_undef::{
    Access, Choice, Entry, Event, NoMemory, Order, UpdateKind, Val, meets_undef, succeeds, updated,
};
use view_machine::Machine;

/// A run that went on by an access, and whether that failed.
#[derive(Drop)]
pub struct Move {
    pub entries: Vec<Entry>,
    pub fails: bool,
}

/// The location of an access, or 0.
pub fn location_of(a: &Access) -> u32
    ensures { result ≡ location_of a.now }
{
    match *a {
        Access::NaRead { x } | Access::NaWrite { x, .. } => x,
        Access::Read { y, .. } | Access::Write { y, .. } | Access::Update { y, .. } => y,
        Access::Fence { .. }
        | Access::Print { .. }
        | Access::Fail { .. }
        | Access::Finish
        | Access::Spend => 0,
    }
}

/// The event of an update of this value, and whether it puts in a message.
fn update_behind(y: u32, order: Order, kind: &UpdateKind, old: Val, b: u64) -> (bool, Event)
    requires { b ≤ 2 ^ 60 }
    ensures puts { result.0 ≡ succeeds kind.now old }
    ensures event { result.1 ≡ update_behind y order kind.now old b }
{
    if succeeds(kind, old) {
        let event = Event::Update {
            y,
            order,
            old,
            new: updated(kind, old),
            read: b,
            to: b + 2,
        };
        return (true, event);
    }
    if meets_undef(kind, old) {
        return (false, Event::FailCompare { y, read: b });
    }
    let event = Event::Miss {
        y,
        order,
        old,
        read: b,
    };
    (false, event)
}

/// The event of an access to an atomic location at the message that ends at `b`, and whether it puts in a message behind
/// that. `None` comes exactly where no message ends there.
fn event_behind(memory: &PlainMemory, a: &Access, b: u64) -> Option<(bool, Event)>
    requires well_formed { IsWellFormedMemory memory.now.memory }
    requires proper { IsProper memory.now.memory a.now }
    requires choice { leaves_choice a.now ≡ true }
    requires low { b ≤ 2 ^ 60 }
    ensures none { IsNone result → message_at b (messages memory.now.memory (location_of a.now)) ≡ None }
    ensures some { IfSome result (λ r. (r.0 ≡ puts_in memory.now.memory a.now b) × (r.1 ≡ event_behind memory.now.memory a.now b) × IsSome (message_at b (messages memory.now.memory (location_of a.now)))) }
{
    match *a {
        Access::Read { y, order } => {
            let v = memory.histories().find(y, b)?.value;
            let event = Event::Read { y, order, v, to: b };
            Some((false, event))
        }
        Access::Write { y, order, v } => {
            memory.histories().find(y, b)?;
            let event = Event::Write {
                y,
                order,
                v,
                from: b + 1,
                to: b + 2,
            };
            Some((true, event))
        }
        Access::Update { y, order, kind } => {
            let old = memory.histories().find(y, b)?.value;
            Some(update_behind(y, order, &kind, old, b))
        }
        _ => unreachable!(),
    }
}

/// The choice of the access that is legal before room is made exactly where its own is legal after that.
fn choice_close(a: &Access, b: u64, puts: bool) -> Choice
    requires { b ≤ 2 ^ 60 }
    ensures { (m : Memory) → puts ≡ puts_in m a.now b → result ≡ choice_close m a.now b }
{
    match *a {
        Access::Read { .. } => Choice::Message { to: b },
        Access::Write { .. } => Choice::Place { from: b, to: b + 1 },
        Access::Update { .. } => {
            if puts {
                Choice::Take { read: b, to: b + 1 }
            } else {
                Choice::Message { to: b }
            }
        }
        _ => Choice::Plain,
    }
}

/// The run with room behind the message that ends at `b`, where the access puts in a message.
fn with_room(
    alloc: Global,
    entries: &[Entry],
    a: &Access,
    b: u64,
    puts: bool,
) -> Result<Vec<Entry>, NoMemory>
    requires { AreSmall (2 ^ 60) entries.now }
    ensures { IfOk result (λ after. after.items ≡ (if puts then map (moved_entry (location_of a.now) (opened b)) entries.now else entries.now)) }
{
    if puts {
        return moved_entries(alloc, location_of(a), b, entries);
    }
    Ok(Vec::from_slice(alloc, entries)?)
}

/// The run that goes on by an entry of the access, with room before it where it puts in a message.
fn run_with(
    alloc: Global,
    entries: &[Entry],
    a: &Access,
    b: u64,
    puts: bool,
    entry: Entry,
) -> Result<Move, NoMemory>
    requires { AreSmall (2 ^ 60) entries.now }
    ensures run { IfOk result (λ m. m.entries.items ≡ (if puts then map (moved_entry (location_of a.now) (opened b)) entries.now else entries.now) ++ entry ∷ []) }
    ensures fails { IfOk result (λ m. m.fails ≡ is_failure entry.event) }
{
    let mut after = with_room(alloc, entries, a, b, puts)?;
    after.push(entry)?;
    Ok(Move {
        entries: after,
        fails: entry.event.is_failure(),
    })
}

/// The run that goes on by the access of a thread at the message that ends at `b`, after its silent steps, where the
/// machine stands behind them. `None` comes exactly where there is no such move.
pub fn try_move(
    alloc: Global,
    p: &Program,
    _steps: u64,
    entries: &[Entry],
    machine: &Machine<PlainMemory>,
    thread: u32,
    silent: u64,
    a: &Access,
    b: u64,
) -> Result<Option<Move>, NoMemory>
    requires proper { IsProperProgram p.now }
    requires run { IsNodeRun p.now _steps entries.now }
    requires small { AreSmall (2 ^ 60) entries.now }
    requires program { IsOf p.now machine.now }
    requires memory { machine.now.memory ≡ (last_state p.now entries.now).memory }
    requires views { machine.now.views ≡ (last_state p.now entries.now).views }
    requires low { b ≤ 2 ^ 60 }
    requires there { thread < length p.now.threads }
    requires silent { silent ≡ silent_there p.now _steps entries.now thread }
    requires asks { Asks _steps (node_of p.now _steps entries.now) thread a.now }
    requires choice { leaves_choice a.now ≡ true }
    requires named { IsProperAccess p.now a.now }
    ensures tried { IfOk result (λ m. IsTried p.now _steps (node_of p.now _steps entries.now) thread a.now b m) }
    ensures small { IfOk result (λ m. HasSmallMove b entries.now m) }
{
    let Some((puts, event)) = event_behind(machine.memory(), a, b) else {
        return Ok(None);
    };
    let choice = choice_close(a, b, puts);
    if !machine.is_legal(p, thread, a, &choice) {
        return Ok(None);
    }
    let entry = Entry {
        thread,
        silent,
        event,
    };
    let made = run_with(alloc, entries, a, b, puts, entry)?;
    Ok(Some(made))
}

/// The run that goes on by the access of a thread that leaves no choice, after its silent steps, where the machine stands
/// behind them.
pub fn only_move(
    alloc: Global,
    p: &Program,
    _steps: u64,
    entries: &[Entry],
    machine: &mut Machine<PlainMemory>,
    thread: u32,
    silent: u64,
    a: &Access,
) -> Result<Move, NoMemory>
    requires proper { IsProperProgram p.now }
    requires run { IsNodeRun p.now _steps entries.now }
    requires few { length entries.now < 2 ^ 32 }
    requires small { AreSmall (2 ^ 60) entries.now }
    requires program { IsOf p.now machine.old }
    requires memory { machine.old.memory ≡ (last_state p.now entries.now).memory }
    requires views { machine.old.views ≡ (last_state p.now entries.now).views }
    requires room { 1 ≤ machine.old.spare }
    requires next { next_in (state_in p.now machine.old) thread ≡ Next.Access a.now }
    requires there { thread < length p.now.threads }
    requires silent { silent ≡ silent_there p.now _steps entries.now thread }
    requires asks { Asks _steps (node_of p.now _steps entries.now) thread a.now }
    requires plain { leaves_choice a.now ≡ false }
    requires named { IsProperAccess p.now a.now }
    ensures made { IfOk result (λ m. IsMove (node_of p.now _steps entries.now) thread a.now 0 × IsMoved p.now _steps (node_of p.now _steps entries.now) thread a.now 0 m) }
    ensures small { IfOk result (λ m. IsSmallMove entries.now m) }
{
    let event = machine.access(p, thread, a, &Choice::Plain);
    let entry = Entry {
        thread,
        silent,
        event,
    };
    let made = run_with(alloc, entries, a, 0, false, entry)?;
    Ok(made)
}

/// The event of an access that touches no location and ends no thread, whatever the memory. `None` comes for each other.
fn event_alone(a: &Access) -> Option<Event>
    ensures some { IfSome result (λ e. (leaves_choice a.now ≡ false) × ((m : Memory) (v : ThreadView) (i : ℕ) → e ≡ (step_result m v i a.now Choice.Plain).event)) }
{
    match *a {
        Access::Fence { order } => Some(Event::Fence { order }),
        Access::Print { v } => Some(Event::Print { v }),
        Access::Fail { cause } => Some(Event::Fail { cause }),
        Access::NaRead { .. }
        | Access::NaWrite { .. }
        | Access::Read { .. }
        | Access::Write { .. }
        | Access::Update { .. }
        | Access::Finish
        | Access::Spend => None,
    }
}

/// The run that goes on by the access of a thread that touches no location, after its silent steps. `None` comes for each other
/// access.
pub fn alone_move(
    alloc: Global,
    _p: &Program,
    _steps: u64,
    entries: &[Entry],
    thread: u32,
    silent: u64,
    a: &Access,
) -> Result<Option<Move>, NoMemory>
    requires proper { IsProperProgram _p.now }
    requires run { IsNodeRun _p.now _steps entries.now }
    requires small { AreSmall (2 ^ 60) entries.now }
    requires there { thread < length _p.now.threads }
    requires silent { silent ≡ silent_there _p.now _steps entries.now thread }
    requires asks { Asks _steps (node_of _p.now _steps entries.now) thread a.now }
    requires named { IsProperAccess _p.now a.now }
    ensures made { IfOk result (λ r. IfSome r (λ m. (leaves_choice a.now ≡ false) × IsMove (node_of _p.now _steps entries.now) thread a.now 0 × IsMoved _p.now _steps (node_of _p.now _steps entries.now) thread a.now 0 m)) }
    ensures small { IfOk result (λ r. IfSome r (λ m. IsSmallMove entries.now m)) }
{
    let Some(event) = event_alone(a) else {
        return Ok(None);
    };
    let entry = Entry {
        thread,
        silent,
        event,
    };
    let made = run_with(alloc, entries, a, 0, false, entry)?;
    Ok(Some(made))
}

/// Where the message of location `y` ends that the entry put in.
pub fn end_in(entry: &Entry, y: u32) -> Option<u64>
    ensures { result ≡ end_in y entry.now.event }
{
    match entry.event {
        Event::Write { y: z, to, .. } | Event::Update { y: z, to, .. } => {
            if z == y { Some(to) } else { None }
        }
        _ => None,
    }
}
