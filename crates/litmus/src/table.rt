//! The table of the outcomes of some runs.
ghost use Rattle.std.specs.Prelude.{◌≡◌, ◌<◌, ◌+◌, ◌^◌, length, IfOk};
ghost use Rattle.std.specs.List.{AllZip, count_by, list_any};
ghost use Rattle.litmus.specs.Table.{IsTableRow, firsts, is_first, run_at, same_end};

use crate::outcome::same_outcome;
use crate::run::SampledRun;
use std::alloc::{AllocError, Global};
use std::marker::Model;
use values_undef::{Ending, Entry, Journal};

/// A row of the table: an outcome's least seed, how many of the seeds have it, and the journal of the least, with its ending.
#[derive(Drop)]
pub struct Sample {
    pub seed: u64,
    pub count: u64,
    pub journal: Journal,
    pub ending: Ending,
}

/// The rows of the table, which contracts see as a list.
#[derive(Drop)]
pub struct Samples {
    pub samples: Vec<Sample>,
}

impl Model for Samples {
    ghost use Rattle.std.specs.Prelude.{List};
    ghost use Rattle.litmus.specs.declared.table.Sample.{Sample};

    ghost Value = { List Sample };

    ghost view = { λ s. s.samples.items };
}

/// Whether two runs come to one outcome.
fn same_end(a: &SampledRun, b: &SampledRun) -> bool
    ensures { result ≡ same_end a.now b.now }
{
    same_outcome(&a.outcome, &b.outcome)
}

/// Whether one of the runs comes to the outcome of a run.
fn has_end_of(runs: &[SampledRun], run: &SampledRun) -> bool
    ensures { result ≡ list_any (same_end run.now) runs.now }
{
    runs.iter().any(|other| same_end(run, other))
}

/// Whether run k is the first with its outcome.
fn is_first(runs: &[SampledRun], k: usize) -> bool
    requires { k < length runs.now }
    ensures { result ≡ is_first runs.now k }
{
    !has_end_of(&runs[..k], &runs[k])
}

/// How many runs have the outcome of run k.
fn count_at(runs: &[SampledRun], k: usize) -> usize
    requires { k < length runs.now }
    ensures { result ≡ count_by (same_end (run_at runs.now k)) runs.now }
{
    let run = &runs[k];
    runs.iter().filter(|other| same_end(run, other)).count()
}

/// The row of run k.
fn row(alloc: Global, seed: u64, runs: &[SampledRun], k: usize) -> Result<Sample, AllocError>
    requires there { k < length runs.now }
    requires small { seed + length runs.now < 2 ^ 64 }
    ensures { IfOk result (λ s. IsTableRow seed runs.now k s) }
{
    let run = &runs[k];
    let entries: Vec<Entry> = Vec::from_slice(alloc, run.journal.entries.as_slice())?;
    Ok(Sample {
        seed: seed + k as u64,
        count: count_at(runs, k) as u64,
        journal: Journal { entries },
        ending: run.outcome.ending,
    })
}

/// The table of runs that are those of the seeds from `seed` on.
pub(crate) fn table(alloc: Global, seed: u64, runs: &[SampledRun]) -> Result<Samples, AllocError>
    requires { seed + length runs.now < 2 ^ 64 }
    ensures { IfOk result (λ s. AllZip (IsTableRow seed runs.now) (firsts runs.now) s) }
{
    let mut samples = Vec::new(alloc);
    for k in 0..runs.len() {
        if is_first(runs, k) {
            samples.push(row(alloc, seed, runs, k)?)?;
        }
    }
    Ok(Samples { samples })
}
