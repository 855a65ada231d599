//! All outcomes of a program, each with a run that has it.
ghost use Rattle.std.specs.Prelude.{◌≡◌, IfOk, IfErr};
ghost use Rattle.thread_core.specs.Programs.{IsProperProgram};
ghost use Rattle.outcome_search.specs.Runs.{HasMoreNodes};
ghost use Rattle.outcomes_session.specs.Session.{AreAllOutcomes, HasOutcomesCondition};

use il_syntax::Program;
use outcome_list::{Found, listed};
use outcome_search::{Stop, complete_runs};
use std::alloc::Global;
use values_undef::NoMemory;

/// All outcomes of the program, where each thread has so many steps, in their order, each with a run that has it. `TooMany` comes
/// exactly where moves lead to more than `states` different nodes; the only other error is want of memory.
pub fn outcomes(alloc: Global, p: &Program, steps: u64, states: u64) -> Result<Vec<Found>, Stop>
    requires proper { IsProperProgram p.now }
    requires condition { HasOutcomesCondition steps states }
    ensures all { IfOk result (λ list. AreAllOutcomes p.now steps (list.items)) }
    ensures exact { IfOk result (λ list. HasMoreNodes p.now steps states → ⊥) }
    ensures many { IfErr result (λ stop. stop ≡ Stop.TooMany → HasMoreNodes p.now steps states) }
{
    let runs = complete_runs(alloc, p, steps, states as usize)?;
    match listed(alloc, p, steps, runs) {
        Ok(list) => Ok(list),
        Err(NoMemory) => Err(Stop::NoMemory),
    }
}
