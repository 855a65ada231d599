//! The accesses of one thread that runs apart.
ghost use Rattle.std.specs.Prelude.{◌≡◌, ◌+◌, ◌≤◌, true, false, MatchOption};
ghost use Rattle.message_memory.specs.Step.{IsProper};
ghost use Rattle.shared_memory.specs.Slot.{first_memory, params_for};
ghost use Rattle.thread_core.specs.Programs.{IsProperProgram, IsProperNext};
ghost use Rattle.thread_core.specs.Steps.{stack_in, ArePositions};
ghost use Rattle.thread_core.specs.Alone.{is_last, local_after_event};
ghost use Rattle.threaded_runner.specs.Underway.{IsNextAccess};

use il_syntax::Program;
use thread_core::{Local, Next};
use values_undef::{Access, Event};

/// The access of a thread's entry, from what comes next in the thread: `Spend` where its budget ends it.
pub fn next_access(_p: &Program, next: Next, spent: bool) -> Access
    requires named { IsProperNext _p.now next }
    requires stops { next ≡ Next.Silent → spent ≡ true }
    ensures next { IsNextAccess next spent result }
    ensures proper { IsProper (first_memory (params_for _p.now 0)) result }
{
    match next.within(spent) {
        Some(a) => a,
        None => Access::Spend,
    }
}

/// Takes the event of an access, and tells how many steps of the budget are left after it; none where it was the thread's last.
pub fn carry_on(local: &mut Local, p: &Program, event: &Event, left: u64) -> Option<u64>
    requires proper { IsProperProgram p.now }
    requires at { ArePositions p.now local.old }
    requires left { is_last event.now ≡ false → 1 ≤ left }
    ensures stack { stack_in p.now local.new ≡ local_after_event (stack_in p.now local.old) event.now }
    ensures at { ArePositions p.now local.new }
    ensures left { MatchOption result (is_last event.now ≡ true) (λ n. (is_last event.now ≡ false) × (n + 1 ≡ left)) }
{
    if local.take(p, event) {
        Some(left - 1)
    } else {
        None
    }
}
