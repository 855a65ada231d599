//! The state in which a journal of a run ends, made again on the machine.
ghost use Rattle.std.specs.Prelude.{◌≡◌, ◌+◌, ◌^◌, ◌<◌, ◌≤◌, ◌==◌, true, false, if◌then◌else◌, IfOk, length};
ghost use Rattle.std.specs.List.{AllByRecursion};
ghost use Rattle.values_undef.specs.Access.{is_spend};
ghost use Rattle.values_undef.specs.Journal.{entry_steps, used_steps};
ghost use Rattle.values_undef.specs.declared.access.Access.{Access as TheAccess};
ghost use Rattle.thread_core.specs.Programs.{IsProperProgram};
ghost use Rattle.view_machine.specs.State.{next_in, initial_state};
ghost use Rattle.view_machine.specs.Runs.{IsEntry, after_entry, IsJournalRun, state_after};
ghost use Rattle.view_machine.specs.Held.{state_in, IsOf, HasRoom};
ghost use Rattle.outcome_nodes.specs.Standing.{IsNodeRun};
ghost use Rattle.outcome_moves.specs.Moves.{last_state, silent_there, IsWhat, StandsFrom};

use il_syntax::Program;
use message_memory::PlainMemory;
use std::alloc::Global;
use thread_core::Next;
use values_undef::{Access, Entry, NoMemory, choice_of};
use view_machine::Machine;

/// Makes an entry that is one of the state, and doesn't end a thread for want of steps.
fn play(machine: &mut Machine<PlainMemory>, p: &Program, entry: &Entry)
    requires proper { IsProperProgram p.now }
    requires program { IsOf p.now machine.old }
    requires room { 1 ≤ machine.old.spare }
    requires versions { HasRoom machine.old.memory }
    requires entry { IsEntry p.now (state_in p.now machine.old) entry.now }
    requires unspent { is_spend entry.now.event ≡ false }
    ensures state { state_in p.now machine.new ≡ after_entry p.now (state_in p.now machine.old) entry.now }
    ensures program { IsOf p.now machine.new }
    ensures room { machine.old.spare ≤ machine.new.spare + 1 }
{
    let (_made, next) = machine.run_to(p, entry.thread, entry.silent);
    let Next::Access { a } = next else {
        unreachable!()
    };
    let choice = choice_of(&entry.event);
    let _event = machine.access(p, entry.thread, &a, &choice);
}

/// The machine in the state in which the entries end, which are a run. It makes each of them.
pub fn stand(
    alloc: Global,
    p: &Program,
    entries: &[Entry],
) -> Result<Machine<PlainMemory>, NoMemory>
    requires proper { IsProperProgram p.now }
    requires run { IsJournalRun p.now entries.now }
    requires unspent { AllByRecursion (λ e. is_spend e.event ≡ false) entries.now }
    requires few { length entries.now < 2 ^ 32 }
    ensures state { IfOk result (λ m. state_in p.now m ≡ state_after p.now (initial_state p.now) entries.now) }
    ensures program { IfOk result (λ m. IsOf p.now m) }
    ensures room { IfOk result (λ m. 1 ≤ m.spare) }
{
    let mut machine = Machine::<PlainMemory>::start(alloc, p)?;
    machine.reserve(entries.len() as u64 + 1)?;
    for k in 0..entries.len() {
        play(&mut machine, p, &entries[k]);
    }
    Ok(machine)
}

/// How many steps an entry takes of the budget of a thread.
fn steps_of(entry: &Entry, thread: u32) -> u64
    requires { (if entry.now.thread == thread then entry_steps entry.now else 0) < 2 ^ 32 }
    ensures { result ≡ (if entry.now.thread == thread then entry_steps entry.now else 0) }
{
    if entry.thread != thread {
        return 0;
    }
    if entry.event.ends_thread() {
        return entry.silent;
    }
    entry.silent + 1
}

/// How many steps of its budget a thread has used.
fn used_by(entries: &[Entry], thread: u32) -> u64
    requires { used_steps entries.now thread < 2 ^ 32 }
    ensures { result ≡ used_steps entries.now thread }
{
    let mut used = 0;
    for k in 0..entries.len() {
        used += steps_of(&entries[k], thread);
    }
    used
}

/// What a thread does after its silent steps, within its budget: an access, or nothing, since it has come to its end or
/// has no step left.
#[derive(Clone, Copy)]
pub enum What {
    Asks { a: Access },
    Finished,
    Spent,
}

/// What a thread does that stands so, and has a step left or hasn't.
fn what_next(next: Next, left: bool) -> What
    ensures silent { next ≡ Next.Silent → result ≡ What.Spent }
    ensures finished { next ≡ Next.Access Access.Finish → result ≡ What.Finished }
    ensures asks { (a : TheAccess) → next ≡ Next.Access a → (a ≡ Access.Finish → ⊥) → left ≡ true → result ≡ What.Asks a }
    ensures spent { (a : TheAccess) → next ≡ Next.Access a → (a ≡ Access.Finish → ⊥) → left ≡ false → result ≡ What.Spent }
    ensures told { (a : TheAccess) → result ≡ What.Asks a → next ≡ Next.Access a }
{
    match next {
        Next::Silent => What::Spent,
        Next::Access { a } => {
            if matches!(a, Access::Finish) {
                return What::Finished;
            }
            if left { What::Asks { a } } else { What::Spent }
        }
    }
}

/// The silent steps that a thread makes from where the run ends, with their number and what the thread does after them. The
/// machine stands there but for the threads before this one, and then but for this one too.
pub fn settle(
    machine: &mut Machine<PlainMemory>,
    p: &Program,
    steps: u64,
    entries: &[Entry],
    thread: u32,
) -> (u64, What)
    requires proper { IsProperProgram p.now }
    requires run { IsNodeRun p.now steps entries.now }
    requires steps { steps < 2 ^ 32 }
    requires there { thread < length p.now.threads }
    requires program { IsOf p.now machine.old }
    requires stands { StandsFrom p.now entries.now thread (state_in p.now machine.old) }
    ensures silent { result.0 ≡ silent_there p.now steps entries.now thread }
    ensures what { IsWhat p.now steps entries.now thread result.1 }
    ensures next { (a : TheAccess) → result.1 ≡ What.Asks a → next_in (state_in p.now machine.new) thread ≡ Next.Access a }
    ensures stands { StandsFrom p.now entries.now (thread + 1) (state_in p.now machine.new) }
    ensures program { IsOf p.now machine.new }
    ensures room { machine.new.spare ≡ machine.old.spare }
{
    let left = steps - used_by(entries, thread);
    let (silent, next) = machine.run_to(p, thread, left);
    (silent, what_next(next, silent < left))
}

/// The machine where the run ends, after the silent steps that a thread makes there, with their number and what the thread
/// does after them.
pub fn stand_at(
    alloc: Global,
    p: &Program,
    steps: u64,
    entries: &[Entry],
    thread: u32,
) -> Result<(Machine<PlainMemory>, u64, What), NoMemory>
    requires proper { IsProperProgram p.now }
    requires run { IsNodeRun p.now steps entries.now }
    requires few { length entries.now < 2 ^ 32 }
    requires steps { steps < 2 ^ 32 }
    requires there { thread < length p.now.threads }
    ensures silent { IfOk result (λ r. r.1 ≡ silent_there p.now steps entries.now thread) }
    ensures what { IfOk result (λ r. IsWhat p.now steps entries.now thread r.2) }
    ensures next { IfOk result (λ r. (a : TheAccess) → r.2 ≡ What.Asks a → next_in (state_in p.now r.0) thread ≡ Next.Access a) }
    ensures memory { IfOk result (λ r. r.0.memory ≡ (last_state p.now entries.now).memory) }
    ensures views { IfOk result (λ r. r.0.views ≡ (last_state p.now entries.now).views) }
    ensures program { IfOk result (λ r. IsOf p.now r.0) }
    ensures room { IfOk result (λ r. 1 ≤ r.0.spare) }
{
    let mut machine = stand(alloc, p, entries)?;
    let (silent, what) = settle(&mut machine, p, steps, entries, thread);
    Ok((machine, silent, what))
}
