//! The work list.
ghost use Rattle.std.specs.Prelude.{◌≡◌, ℕ, ◌+◌, ◌^◌, ◌<◌, ◌≤◌, IfOk, OnOk, IfErr, length, slice_index_or};
ghost use Rattle.std.specs.List.{Contains, AllByRecursion};
ghost use Rattle.thread_core.specs.Programs.{IsProperProgram};
ghost use Rattle.outcome_nodes.specs.Nodes.{Node};
ghost use Rattle.outcome_nodes.specs.Standing.{node_of};
ghost use Rattle.outcome_moves.specs.declared.moves.Move.{Move as TheMove};
ghost use Rattle.outcome_search.specs.Runs.{nodes_of, Extends, AreCompleteRuns, HasMoreNodes};
ghost use Rattle.outcome_search.specs.Places.{IsNodeTable};
ghost use Rattle.outcome_search.specs.Search.{IsUsable, IsEntered, IsExplored, HasAllNodes};

use crate::stop::Stop;
use crate::table::{Table, add};
use il_syntax::Program;
use outcome_moves::{Move, moves_of};
use std::alloc::Global;
use std::collections::BTreeMap;
use values_undef::Journal;

/// Puts the run of a move that fails to the failed ones, and that of another to the kept ones.
fn enter(
    alloc: Global,
    p: &Program,
    _steps: u64,
    limit: usize,
    kept: &mut Table,
    failed: &mut Vec<Journal>,
    m: Move,
) -> Result<(), Stop>
    requires proper { IsProperProgram p.now }
    requires limit { limit ≤ 2 ^ 30 }
    requires kept { IsNodeTable p.now _steps limit kept.old }
    requires complete { AreCompleteRuns p.now _steps failed.old.items }
    requires usable { IsUsable p.now _steps (length kept.old.runs.items + 1) m }
    ensures kept { OnOk result (IsNodeTable p.now _steps limit kept.new) }
    ensures complete { OnOk result (AreCompleteRuns p.now _steps failed.new.items) }
    ensures grows { OnOk result (Extends kept.old.runs.items kept.new.runs.items) }
    ensures grows_too { OnOk result (Extends failed.old.items failed.new.items) }
    ensures entered { OnOk result (IsEntered p.now _steps kept.new.runs.items failed.new.items m) }
    ensures many { IfErr result (λ stop. stop ≡ Stop.TooMany → HasMoreNodes p.now _steps limit) }
{
    let fails = m.fails;
    let run = Journal { entries: m.entries };
    if fails {
        failed.push(run)?;
        return Ok(());
    }
    add(alloc, p, _steps, limit, kept, run)
}

/// Does so with each of the moves.
fn enter_all(
    alloc: Global,
    p: &Program,
    _steps: u64,
    limit: usize,
    kept: &mut Table,
    failed: &mut Vec<Journal>,
    moves: Vec<Move>,
) -> Result<(), Stop>
    requires proper { IsProperProgram p.now }
    requires limit { limit ≤ 2 ^ 30 }
    requires kept { IsNodeTable p.now _steps limit kept.old }
    requires complete { AreCompleteRuns p.now _steps failed.old.items }
    requires usable { AllByRecursion (IsUsable p.now _steps (length kept.old.runs.items + 1)) moves.items }
    ensures kept { OnOk result (IsNodeTable p.now _steps limit kept.new) }
    ensures complete { OnOk result (AreCompleteRuns p.now _steps failed.new.items) }
    ensures grows { OnOk result (Extends kept.old.runs.items kept.new.runs.items) }
    ensures grows_too { OnOk result (Extends failed.old.items failed.new.items) }
    ensures entered { OnOk result ((m : TheMove) → Contains moves.items m → IsEntered p.now _steps kept.new.runs.items failed.new.items m) }
    ensures many { IfErr result (λ stop. stop ≡ Stop.TooMany → HasMoreNodes p.now _steps limit) }
{
    let mut left = moves;
    while let Some(m) = left.pop() {
        enter(alloc, p, _steps, limit, kept, failed, m)?;
    }
    Ok(())
}

/// Makes all moves from the node of place `at`.
fn explore(
    alloc: Global,
    p: &Program,
    steps: u64,
    limit: usize,
    kept: &mut Table,
    failed: &mut Vec<Journal>,
    at: usize,
) -> Result<(), Stop>
    requires proper { IsProperProgram p.now }
    requires steps { steps < 2 ^ 32 }
    requires limit { limit ≤ 2 ^ 30 }
    requires kept { IsNodeTable p.now steps limit kept.old }
    requires complete { AreCompleteRuns p.now steps failed.old.items }
    requires there { at < length kept.old.runs.items }
    ensures kept { OnOk result (IsNodeTable p.now steps limit kept.new) }
    ensures complete { OnOk result (AreCompleteRuns p.now steps failed.new.items) }
    ensures grows { OnOk result (Extends kept.old.runs.items kept.new.runs.items) }
    ensures grows_too { OnOk result (Extends failed.old.items failed.new.items) }
    ensures explored { OnOk result ((n : Node) → slice_index_or (nodes_of p.now steps kept.old.runs.items) at n ≡ n → IsExplored p.now steps kept.new.runs.items failed.new.items n) }
    ensures many { IfErr result (λ stop. stop ≡ Stop.TooMany → HasMoreNodes p.now steps limit) }
{
    let run = &kept.runs[at];
    let moves = moves_of(alloc, p, steps, &run.entries)?;
    enter_all(alloc, p, steps, limit, kept, failed, moves)
}

/// All nodes of the program within the budget, each with a run that ends in it, and the runs that fail. `TooMany` comes
/// only where moves lead to more than `limit` different nodes, and such lists only where they don't.
pub fn close(
    alloc: Global,
    p: &Program,
    steps: u64,
    limit: usize,
) -> Result<(Vec<Journal>, Vec<Journal>), Stop>
    requires proper { IsProperProgram p.now }
    requires steps { steps < 2 ^ 32 }
    requires limit { limit ≤ 2 ^ 30 }
    ensures whole { IfOk result (λ r. HasAllNodes p.now steps limit r.0.items r.1.items) }
    ensures exact { IfOk result (λ r. HasMoreNodes p.now steps limit → ⊥) }
    ensures many { IfErr result (λ stop. stop ≡ Stop.TooMany → HasMoreNodes p.now steps limit) }
{
    let runs = Vec::new(alloc);
    let places = BTreeMap::new(alloc);
    let mut kept = Table { runs, places };
    let mut failed = Vec::new(alloc);
    let entries = Vec::new(alloc);
    let first = Journal { entries };
    add(alloc, p, steps, limit, &mut kept, first)?;
    let mut done = 0;
    while done < kept.runs.len() {
        explore(alloc, p, steps, limit, &mut kept, &mut failed, done)?;
        done += 1;
    }
    Ok((kept.runs, failed))
}
