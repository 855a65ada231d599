//! The run in which each thread makes its last entry, where none goes on.
ghost use Rattle.std.specs.Prelude.{◌≡◌, ◌⊎◌, ℕ, ◌+◌, ◌^◌, ◌<◌, IfOk, IsNone, IfSome, length};
ghost use Rattle.thread_core.specs.Programs.{IsProperProgram};
ghost use Rattle.view_machine.specs.Held.{state_in, IsOf};
ghost use Rattle.outcome_nodes.specs.Nodes.{IsFinished, IsSpent};
ghost use Rattle.outcome_nodes.specs.Reached.{IsEndedRun};
ghost use Rattle.outcome_nodes.specs.Standing.{node_of, IsNodeRun, last_entry};
ghost use Rattle.outcome_moves.specs.Moves.{last_state, StandsFrom};

use crate::standing::{What, settle, stand};
use il_syntax::Program;
use message_memory::PlainMemory;
use std::alloc::Global;
use values_undef::{Entry, Event, NoMemory};
use view_machine::Machine;

/// The last entry of a thread where the run ends. `None` comes exactly where it goes on.
fn last_entry(
    machine: &mut Machine<PlainMemory>,
    p: &Program,
    steps: u64,
    entries: &[Entry],
    thread: u32,
) -> Option<Entry>
    requires proper { IsProperProgram p.now }
    requires run { IsNodeRun p.now steps entries.now }
    requires steps { steps < 2 ^ 32 }
    requires there { thread < length p.now.threads }
    requires program { IsOf p.now machine.old }
    requires stands { StandsFrom p.now entries.now thread (state_in p.now machine.old) }
    ensures some { IfSome result (λ e. (e ≡ last_entry p.now steps entries.now (last_state p.now entries.now) thread) × (IsFinished (node_of p.now steps entries.now) thread ⊎ IsSpent steps (node_of p.now steps entries.now) thread)) }
    ensures none { IsNone result → IsFinished (node_of p.now steps entries.now) thread ⊎ IsSpent steps (node_of p.now steps entries.now) thread → ⊥ }
    ensures stands { StandsFrom p.now entries.now (thread + 1) (state_in p.now machine.new) }
    ensures program { IsOf p.now machine.new }
{
    let (silent, what) = settle(machine, p, steps, entries, thread);
    let event = match what {
        What::Asks { .. } => return None,
        What::Finished => Event::Finish,
        What::Spent => Event::Spend,
    };
    Some(Entry {
        thread,
        silent,
        event,
    })
}

/// The run in which each thread makes its last entry, where none goes on. `None` comes exactly where one does.
pub fn ended_run(
    alloc: Global,
    p: &Program,
    steps: u64,
    entries: &[Entry],
) -> Result<Option<Vec<Entry>>, NoMemory>
    requires proper { IsProperProgram p.now }
    requires run { IsNodeRun p.now steps entries.now }
    requires few { length entries.now < 2 ^ 31 }
    requires steps { steps < 2 ^ 32 }
    ensures ended { IfOk result (λ r. IfSome r (λ after. IsEndedRun p.now steps (node_of p.now steps entries.now) after.items)) }
    ensures longer { IfOk result (λ r. IfSome r (λ after. length after.items ≡ length entries.now + length p.now.threads)) }
    ensures none { IfOk result (λ r. IsNone r → ((i : ℕ) → i < length p.now.threads → IsFinished (node_of p.now steps entries.now) i ⊎ IsSpent steps (node_of p.now steps entries.now) i) → ⊥) }
{
    let mut machine = stand(alloc, p, entries)?;
    let mut after = Vec::from_slice(alloc, entries)?;
    let threads = p.threads.len() as u32;
    for thread in 0..threads {
        let Some(entry) = last_entry(&mut machine, p, steps, entries, thread) else {
            return Ok(None);
        };
        after.push(entry)?;
    }
    Ok(Some(after))
}
