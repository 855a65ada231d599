//! Runs that have all outcomes.
ghost use Rattle.std.specs.Prelude.{◌≡◌, ℕ, ◌+◌, ◌^◌, ◌<◌, ◌≤◌, IfOk, OnOk, IfErr, length};
ghost use Rattle.std.specs.List.{All};
ghost use Rattle.thread_core.specs.Programs.{IsProperProgram};
ghost use Rattle.outcome_nodes.specs.Outcome.{HaveAllOutcomes};
ghost use Rattle.outcome_nodes.specs.Standing.{node_of, IsNodeRun};
ghost use Rattle.outcome_search.specs.Runs.{Extends, AreCompleteRuns, HasMoreNodes};
ghost use Rattle.outcome_search.specs.Search.{HasEnding};

use crate::search::close;
use crate::stop::Stop;
use il_syntax::Program;
use outcome_moves::ended_run;
use std::alloc::Global;
use values_undef::{Entry, Journal, NoMemory};

/// Adds the run in which each thread ends, where none goes on from the end of this one.
fn add_ended(
    alloc: Global,
    p: &Program,
    steps: u64,
    entries: &[Entry],
    runs: &mut Vec<Journal>,
) -> Result<(), NoMemory>
    requires proper { IsProperProgram p.now }
    requires steps { steps < 2 ^ 32 }
    requires run { IsNodeRun p.now steps entries.now }
    requires few { length entries.now < 2 ^ 31 }
    requires complete { AreCompleteRuns p.now steps runs.old.items }
    ensures complete { OnOk result (AreCompleteRuns p.now steps runs.new.items) }
    ensures grows { OnOk result (Extends runs.old.items runs.new.items) }
    ensures ending { OnOk result (HasEnding p.now steps (node_of p.now steps entries.now) runs.new.items) }
{
    if let Some(after) = ended_run(alloc, p, steps, entries)? {
        runs.push(Journal { entries: after })?;
    }
    Ok(())
}

/// Runs that are complete for the budget and have all outcomes. `TooMany` comes only where moves lead to more than `limit`
/// different nodes, and such runs only where they don't.
pub fn complete_runs(
    alloc: Global,
    p: &Program,
    steps: u64,
    limit: usize,
) -> Result<Vec<Journal>, Stop>
    requires proper { IsProperProgram p.now }
    requires steps { steps < 2 ^ 32 }
    requires limit { limit ≤ 2 ^ 30 }
    ensures all { IfOk result (λ runs. HaveAllOutcomes p.now steps runs.items) }
    ensures few { IfOk result (λ runs. All (λ entries. length entries < 2 ^ 32) runs.items) }
    ensures exact { IfOk result (λ runs. HasMoreNodes p.now steps limit → ⊥) }
    ensures many { IfErr result (λ stop. stop ≡ Stop.TooMany → HasMoreNodes p.now steps limit) }
{
    let (kept, failed) = close(alloc, p, steps, limit)?;
    let mut runs = failed;
    for k in 0..kept.len() {
        let run = &kept[k];
        add_ended(alloc, p, steps, &run.entries, &mut runs)?;
    }
    Ok(runs)
}
