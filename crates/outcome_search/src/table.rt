//! Runs that end in different nodes, found by a key of the node.
ghost use Rattle.std.specs.Prelude.{◌≡◌, ◌↔◌, ℕ, ◌+◌, ◌^◌, ◌<◌, ◌≤◌, ◌==◌, ◌++◌, ◌∷◌, [], if◌then◌else◌, IsTrue, IfOk, OnOk, IfErr, length};
ghost use Rattle.std.specs.List.{Contains, AllByRecursion};
ghost use Rattle.thread_core.specs.Programs.{IsProperProgram};
ghost use Rattle.outcome_nodes.specs.Standing.{node_of, IsNodeRun};
ghost use Rattle.equal_nodes.specs.Keys.{key_of};
ghost use Rattle.outcome_search.specs.Runs.{nodes_of, Extends, IsShortRun, AreShortRuns, HasMoreNodes};
ghost use Rattle.outcome_search.specs.Places.{places_at, HasNodeAt, IsNodeTable};

use crate::stop::Stop;
use equal_nodes::{key_of, same_node};
use il_syntax::Program;
use std::alloc::Global;
use std::collections::BTreeMap;
use values_undef::{Entry, Journal, NoMemory};

/// Runs that end in different nodes, and at which places those stand whose nodes have a key.
#[derive(Drop)]
pub struct Table {
    pub runs: Vec<Journal>,
    pub places: BTreeMap<u64, Vec<usize>>,
}

/// Whether the run at one of the places ends in the node in which this one ends.
fn has_at(
    alloc: Global,
    p: &Program,
    _steps: u64,
    runs: &[Journal],
    places: &[usize],
    entries: &[Entry],
) -> Result<bool, NoMemory>
    requires proper { IsProperProgram p.now }
    requires few { length runs.now < 2 ^ 31 }
    requires short { AreShortRuns p.now _steps (length runs.now) runs.now }
    requires within { AllByRecursion (λ i. i < length runs.now) places.now }
    requires run { IsNodeRun p.now _steps entries.now }
    requires few_entries { length entries.now < 2 ^ 32 }
    ensures { IfOk result (λ found. IsTrue found ↔ HasNodeAt p.now _steps runs.now places.now (node_of p.now _steps entries.now)) }
{
    for k in 0..places.len() {
        let other = &runs[places[k]];
        if same_node(alloc, p, _steps, &other.entries, entries)? {
            return Ok(true);
        }
    }
    Ok(false)
}

/// Whether a run of the table ends in the node in which this one ends.
fn has(
    alloc: Global,
    p: &Program,
    _steps: u64,
    _limit: usize,
    kept: &Table,
    key: u64,
    entries: &[Entry],
) -> Result<bool, NoMemory>
    requires proper { IsProperProgram p.now }
    requires limit { _limit ≤ 2 ^ 30 }
    requires kept { IsNodeTable p.now _steps _limit kept.now }
    requires key { key ≡ key_of (node_of p.now _steps entries.now).told }
    requires run { IsNodeRun p.now _steps entries.now }
    requires few_entries { length entries.now < 2 ^ 32 }
    ensures { IfOk result (λ found. IsTrue found ↔ Contains (nodes_of p.now _steps kept.now.runs.items) (node_of p.now _steps entries.now)) }
{
    let Some(places) = kept.places.get(&key) else {
        return Ok(false);
    };
    has_at(alloc, p, _steps, &kept.runs, places, entries)
}

/// Lists the place for the key.
fn note(places: &mut BTreeMap<u64, Vec<usize>>, key: u64, place: usize) -> Result<(), NoMemory>
    ensures { OnOk result ((k : ℕ) → places_at places.new k ≡ places_at places.old k ++ (if k == key then place ∷ [] else [])) }
{
    places.entry(key)?.or_default().push(place)?;
    Ok(())
}

/// Adds the run, unless one is there that ends in the same node.
pub(crate) fn add(
    alloc: Global,
    p: &Program,
    _steps: u64,
    limit: usize,
    kept: &mut Table,
    run: Journal,
) -> Result<(), Stop>
    requires proper { IsProperProgram p.now }
    requires limit { limit ≤ 2 ^ 30 }
    requires kept { IsNodeTable p.now _steps limit kept.old }
    requires run { IsShortRun p.now _steps (length kept.old.runs.items + 1) run }
    ensures kept { OnOk result (IsNodeTable p.now _steps limit kept.new) }
    ensures grows { OnOk result (Extends kept.old.runs.items kept.new.runs.items) }
    ensures added { OnOk result (Contains (nodes_of p.now _steps kept.new.runs.items) (node_of p.now _steps run)) }
    ensures many { IfErr result (λ stop. stop ≡ Stop.TooMany → HasMoreNodes p.now _steps limit) }
{
    let key = key_of(p.threads.len() as u32, &run.entries);
    if has(alloc, p, _steps, limit, kept, key, &run.entries)? {
        return Ok(());
    }
    let place = kept.runs.len();
    if place >= limit {
        return Err(Stop::TooMany);
    }
    note(&mut kept.places, key, place)?;
    kept.runs.push(run)?;
    Ok(())
}
