//! The list of the outcomes that some runs have.
ghost use Rattle.std.specs.Prelude.{◌≡◌, ℕ, ◌<◌, IfOk, IfErr, OnOk, List, length, map, slice_index_or};
ghost use Rattle.std.specs.List.{AllByRecursion, Contains};
ghost use Rattle.thread_core.specs.Programs.{IsProperProgram};
ghost use Rattle.view_machine.specs.Runs.{IsJournalRun};
ghost use Rattle.outcome_nodes.specs.Outcome.{FinalOutcome, HaveAllOutcomes, IsOutcome, final_outcome_of};
ghost use Rattle.outcome_list.specs.Order.{AreOutcomesRising, outcome_cmp};
ghost use Rattle.outcome_list.specs.List.{IsAdded, IsFirstOf, IsFound, IsPlaceFor, found_outcome};

use crate::found::{Found, Outcome};
use crate::order::compare;
use crate::outcome::outcome_of;
use il_syntax::Program;
use std::alloc::{AllocError, Global};
use std::cmp::Ordering;
use values_undef::{Entry, Journal, NoMemory};

/// Where the outcome stands in the list, or where it would.
fn place_of(list: &[Found], outcome: &Outcome) -> Result<usize, usize>
    requires { AreOutcomesRising (map found_outcome list.now) }
    ensures found { IfOk result (λ k. Contains (map found_outcome list.now) outcome.now) }
    ensures place { IfErr result (IsPlaceFor (map found_outcome list.now) outcome.now) }
{
    list.binary_search_by(
        |found: &Found| -> Ordering
            ensures { result ≡ outcome_cmp (found_outcome found.now) outcome.entry.now }
        { compare(&found.outcome, outcome) },
    )
}

/// A copy of a run.
fn copied(alloc: Global, run: &Journal) -> Result<Journal, AllocError>
    ensures { IfOk result (λ j. j ≡ run.now) }
{
    let entries: Vec<Entry> = Vec::from_slice(alloc, run.entries.as_slice())?;
    Ok(Journal { entries })
}

/// Puts the outcome of a run into the list, unless it stands there.
fn add_run(alloc: Global, p: &Program, run: &Journal, list: &mut Vec<Found>) -> Result<(), NoMemory>
    requires proper { IsProperProgram p.now }
    requires run { IsJournalRun p.now run.now }
    requires rising { AreOutcomesRising (map found_outcome list.old.items) }
    ensures { OnOk result (IsAdded p.now run.now list.old.items list.new.items) }
{
    let outcome = outcome_of(alloc, p, run)?;
    if let Err(place) = place_of(list.as_slice(), &outcome) {
        let journal = copied(alloc, run)?;
        list.insert(place, Found { outcome, journal })?;
    }
    Ok(())
}

/// The outcomes of the runs in their order, each once, with the first of the runs that has it.
pub fn listed(
    alloc: Global,
    p: &Program,
    _steps: u64,
    runs: Vec<Journal>,
) -> Result<Vec<Found>, NoMemory>
    requires proper { IsProperProgram p.now }
    requires all { HaveAllOutcomes p.now _steps runs.items }
    ensures nothing_missed { IfOk result (λ list. (o : FinalOutcome) → IsOutcome p.now _steps o → Contains (map found_outcome list.items) o) }
    ensures nothing_invented { IfOk result (λ list. AllByRecursion (IsFound p.now _steps) list.items) }
    ensures each_once { IfOk result (λ list. AreOutcomesRising (map found_outcome list.items)) }
    ensures first { IfOk result (λ list. AllByRecursion (IsFirstOf p.now runs.items (length runs.items)) list.items) }
{
    let mut list = Vec::new(alloc);
    for k in 0..runs.len() {
        add_run(alloc, p, &runs[k], &mut list)?;
    }
    Ok(list)
}
