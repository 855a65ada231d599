//! The table of many seeds, whose runs are shared out among threads.
ghost use Rattle.std.specs.Prelude.{◌≡◌, ◌≤◌, ◌<◌, ◌+◌, ◌^◌, IfOk};
ghost use Rattle.std.specs.List.{All, AllZip, range_with_len, sum_by};
ghost use Rattle.il_syntax.specs.WellFormed.{IsWellFormed};
ghost use Rattle.litmus.specs.Laws.{IsRunOfSeeds};
ghost use Rattle.litmus.specs.Sampled.{CanBeSampled};
ghost use Rattle.litmus.specs.Table.{IsSeedRun, IsOutcomeTable};

use crate::run::{SampledRun, sampled};
use crate::table::{Samples, table};
use il_syntax::Program;
use message_memory::MessageMemory;
use rayon::prelude::*;
use std::alloc::{AllocError, Global};
use std::thread::Threads;
use values_undef::NoMemory;

/// So many seeds, from `seed` on.
fn seeds_from(alloc: Global, seed: u64, seeds: u64) -> Result<Vec<u64>, AllocError>
    requires { seed + seeds < 2 ^ 64 }
    ensures { IfOk result (λ list. list.items ≡ range_with_len seed seeds) }
{
    let mut list = Vec::new(alloc);
    for k in 0..seeds {
        list.push(seed + k)?;
    }
    Ok(list)
}

/// The run of each seed, in order, from as many threads as take part.
fn runs_of<M: MessageMemory, R: Threads + Sync>(
    rt: &R,
    alloc: Global,
    p: &Program,
    seeds: &[u64],
    steps: u64,
) -> Result<Vec<SampledRun>, NoMemory>
    requires { CanBeSampled p.now steps }
    ensures { IfOk result (λ runs. AllZip (λ seed r. IsSeedRun p.now seed steps r) seeds.now runs.items) }
{
    seeds
        .par_iter()
        .with_min_len(1)
        .map(
            |seed: &u64| -> Result<SampledRun, NoMemory>
                requires { CanBeSampled p.now steps }
                ensures { IfOk result (λ r. IsSeedRun p.entry.now seed.now steps r) }
            { sampled::<M>(alloc, p, *seed, steps) },
        )
        .collect::<Result<Vec<SampledRun>, NoMemory>>(rt, alloc)?
}

/// The table of the outcomes of so many seeds, from `seed` on: exactly what one thread makes, however many take part. Each row
/// names an outcome's least seed, how many of the seeds have the outcome, and the journal of the least, which is a run of the
/// program, complete for the budget of steps, in the turns and with the choices that the seed draws. The only error is want of
/// memory.
///
/// It is a sample of runs: of an outcome that no row has nothing is said.
pub fn litmus<M: MessageMemory, R: Threads + Sync>(
    rt: &R,
    alloc: Global,
    p: &Program,
    seed: u64,
    seeds: u64,
    steps: u64,
) -> Result<Samples, NoMemory>
    requires well_formed { IsWellFormed p.now }
    requires seed { seed < 2 ^ 63 }
    requires some { 1 ≤ seeds }
    requires few { seeds ≤ 500 }
    requires some_steps { 1 ≤ steps }
    requires few_steps { steps ≤ 100 }
    ensures table { IfOk result (λ s. IsOutcomeTable p.now seed seeds steps s) }
    ensures counts { IfOk result (λ s. sum_by (λ x. x.count) s ≡ seeds) }
    ensures runs { IfOk result (λ s. All (IsRunOfSeeds p.now seed seeds steps) s) }
{
    let list = seeds_from(alloc, seed, seeds)?;
    let runs = runs_of::<M, R>(rt, alloc, p, list.as_slice(), steps)?;
    Ok(table(alloc, seed, runs.as_slice())?)
}
