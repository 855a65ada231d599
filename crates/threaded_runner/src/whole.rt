//! A whole run of a program: a new memory, all threads, and the journal.
ghost use Rattle.std.specs.Prelude.{◌≡◌, ◌+◌, ◌*◌, ◌≤◌, ◌<◌, length, IfOk};
ghost use Rattle.thread_core.specs.Programs.{IsProperProgram};
ghost use Rattle.view_machine.specs.Runs.{IsJournalRun};
ghost use Rattle.run_choices.specs.Complete.{IsComplete};
ghost use Rattle.run_choices.specs.Drawn.{Drawn};

use crate::gate::Gate;
use crate::running::run_threads;
use il_syntax::Program;
use message_memory::MessageMemory;
use shared_memory::Shared;
use std::alloc::Global;
use std::sync::Wait;
use std::thread::Threads;
use values_undef::{Journal, NoMemory};

/// Runs the program by as many threads as it has, and gives the journal that they have made: a run of the program, complete for
/// the budget, with choices that were drawn from the seed. The only error is want of memory.
pub fn run_program<M: MessageMemory, G: Gate + Sync, R: Threads + Wait + Sync>(
    rt: &R,
    alloc: Global,
    p: &Program,
    seed: u64,
    steps: u64,
    gate: &G,
) -> Result<Journal, NoMemory>
    requires proper { IsProperProgram p.now }
    requires some_thread { 1 ≤ length p.now.threads }
    requires few { steps ≤ 16384 }
    ensures run { IfOk result (λ j. IsJournalRun p.now j) }
    ensures complete { IfOk result (λ j. IsComplete p.now j steps) }
    ensures drawn { IfOk result (λ j. Drawn p.now j seed) }
    ensures few { IfOk result (λ j. length j ≤ length p.now.threads * (steps + 1)) }
{
    let (shared, mut passes) = Shared::<M>::make(alloc, p, steps + 1)?;
    run_threads(rt, alloc, p, &shared, &mut passes, seed, steps, gate)?;
    Ok(shared.close(passes))
}
