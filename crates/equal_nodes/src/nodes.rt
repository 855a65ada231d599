//! Whether two runs end in the same node.
ghost use Rattle.std.specs.Prelude.{◌≡◌, ◌⊎◌, ◌↔◌, ℕ, ◌^◌, ◌<◌, IfOk, IsTrue, IsSome, length};
ghost use Rattle.message_memory.specs.Memory.{messages, message_at};
ghost use Rattle.thread_core.specs.Programs.{IsProperProgram};
ghost use Rattle.outcome_nodes.specs.Standing.{node_of, IsNodeRun};
ghost use Rattle.outcome_moves.specs.Ends.{HasEnd};

use crate::memories::{same_messages, same_view};
use crate::told::same_told;
use il_syntax::Program;
use message_memory::PlainMemory;
use outcome_moves::stand;
use std::alloc::Global;
use values_undef::{Entry, NoMemory};
use view_machine::Machine;

/// Whether the threads have the same views.
fn same_views(a: &Machine<PlainMemory>, b: &Machine<PlainMemory>, threads: u32) -> bool
    requires first { length a.now.locals ≡ threads }
    requires second { length b.now.locals ≡ threads }
    requires first_views { length a.now.views ≡ threads }
    requires second_views { length b.now.views ≡ threads }
    requires na { length b.now.memory.na ≡ length a.now.memory.na }
    requires atomic { length b.now.memory.atomic ≡ length a.now.memory.atomic }
    ensures { IsTrue result ↔ (a.now.views ≡ b.now.views) }
{
    for thread in 0..threads {
        if !same_view(a.view(thread), b.view(thread)) {
            return false;
        }
    }
    true
}

/// Whether two states have the same views and the same messages, which the entries put in.
fn same_state(
    a: &Machine<PlainMemory>,
    b: &Machine<PlainMemory>,
    first: &[Entry],
    second: &[Entry],
    threads: u32,
    locations: u32,
) -> bool
    requires threads { length a.now.locals ≡ threads }
    requires threads_too { length b.now.locals ≡ threads }
    requires first_views { length a.now.views ≡ threads }
    requires second_views { length b.now.views ≡ threads }
    requires na { length b.now.memory.na ≡ length a.now.memory.na }
    requires locations { length a.now.memory.atomic ≡ locations }
    requires locations_too { length b.now.memory.atomic ≡ locations }
    requires ends { (y : ℕ) (to : ℕ) → IsSome (message_at to (messages a.now.memory y)) → (to ≡ 0) ⊎ HasEnd first.now y to }
    requires ends_too { (y : ℕ) (to : ℕ) → IsSome (message_at to (messages b.now.memory y)) → (to ≡ 0) ⊎ HasEnd second.now y to }
    ensures { IsTrue result ↔ ((a.now.views ≡ b.now.views) × (a.now.memory.atomic ≡ b.now.memory.atomic)) }
{
    if !same_views(a, b, threads) {
        return false;
    }
    same_messages(a.memory(), b.memory(), first, second, locations)
}

/// Whether two runs that nodes stand for end in the same node.
pub fn same_node(
    alloc: Global,
    p: &Program,
    _steps: u64,
    a: &[Entry],
    b: &[Entry],
) -> Result<bool, NoMemory>
    requires proper { IsProperProgram p.now }
    requires first { IsNodeRun p.now _steps a.now }
    requires second { IsNodeRun p.now _steps b.now }
    requires few { length a.now < 2 ^ 32 }
    requires few_too { length b.now < 2 ^ 32 }
    ensures { IfOk result (λ same. IsTrue same ↔ (node_of p.now _steps a.now ≡ node_of p.now _steps b.now)) }
{
    let threads = p.threads.len() as u32;
    if !same_told(alloc, a, b, threads)? {
        return Ok(false);
    }
    let first = stand(alloc, p, a)?;
    let second = stand(alloc, p, b)?;
    let locations = p.atomic.len() as u32;
    Ok(same_state(&first, &second, a, b, threads, locations))
}
