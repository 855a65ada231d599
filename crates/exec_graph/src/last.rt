//! What the last entry was to do: its thread runs alone up to it.
ghost use Rattle.std.specs.Prelude.{◌≡◌, ℕ, ◌-◌, ◌<◌, ◌≤◌, false, length, IfOk, slice_index_or};
ghost use Rattle.values_undef.specs.Access.{is_spend};
ghost use Rattle.thread_core.specs.Programs.{IsProperProgram};
ghost use Rattle.thread_core.specs.Frames.{next_of};
ghost use Rattle.thread_core.specs.Alone.{HasSilent, local_after_silent};
ghost use Rattle.thread_core.specs.Asking.{asked};
ghost use Rattle.thread_core.specs.Steps.{stack_in, ArePositions};
ghost use Rattle.view_machine.specs.Runs.{IsJournalRun};
ghost use Rattle.exec_graph.specs.Alone.{after_own};
ghost use Rattle.exec_graph.specs.Calls.{calls_in};
ghost use Rattle.exec_graph.specs.Entries.{access_at, event_at};

use il_syntax::Program;
use std::alloc::Global;
use thread_core::{Local, Next};
use values_undef::{Access, Entry, Journal, NoMemory};

/// What a thread asks for; a silent step stands for the end.
fn asked(next: Next) -> Access
    ensures { result ≡ asked next }
{
    match next {
        Next::Silent => Access::Finish,
        Next::Access { a } => a,
    }
}

/// Makes the silent steps of an entry, and tells what comes next.
fn make_silent(local: &mut Local, p: &Program, silent: u64) -> Next
    requires proper { IsProperProgram p.now }
    requires at { ArePositions p.now local.old }
    requires silent { HasSilent p.now silent (stack_in p.now local.old) }
    ensures stack { stack_in p.now local.new ≡ local_after_silent p.now silent (stack_in p.now local.old) }
    ensures next { result ≡ next_of (stack_in p.now local.new) }
    ensures at { ArePositions p.now local.new }
{
    local.run_to(p, silent).1
}

/// Takes a thread over an entry of the journal.
fn pass(local: &mut Local, p: &Program, thread: u32, entry: &Entry)
    requires proper { IsProperProgram p.now }
    requires at { ArePositions p.now local.old }
    requires silent { entry.now.thread ≡ thread → HasSilent p.now entry.now.silent (stack_in p.now local.old) }
    ensures stack { stack_in p.now local.new ≡ after_own p.now thread (stack_in p.now local.old) entry.now }
    ensures at { ArePositions p.now local.new }
{
    if entry.thread != thread {
        return;
    }
    make_silent(local, p, entry.silent);
    local.take(p, &entry.event);
}

/// What the last entry of a run was to do.
pub(crate) fn last_access(alloc: Global, p: &Program, journal: &Journal) -> Result<Access, NoMemory>
    requires proper { IsProperProgram p.now }
    requires run { IsJournalRun p.now journal.now }
    requires some { 0 < length journal.now }
    requires asks { is_spend (event_at (calls_in p.now journal.now) (length journal.now - 1)) ≡ false }
    ensures { IfOk result (λ a. a ≡ access_at (calls_in p.now journal.now) (length journal.now - 1)) }
{
    let last = journal.entries.len() - 1;
    let thread = journal.entries[last].thread;
    let mut local = thread_core::start(alloc, p, thread)?;
    for k in 0..last {
        pass(&mut local, p, thread, &journal.entries[k]);
    }
    let next = make_silent(&mut local, p, journal.entries[last].silent);
    Ok(asked(next))
}
