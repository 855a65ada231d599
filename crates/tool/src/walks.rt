//! Walks of a program: one thread plays all of its threads, with choices that are drawn or picked.
ghost use Rattle.std.specs.Prelude.{◌≡◌, ◌≤◌, length, IfOk};
ghost use Rattle.values_undef.specs.Journal.{ending_in};
ghost use Rattle.il_syntax.specs.WellFormed.{IsWellFormed};
ghost use Rattle.tool.specs.Walk.{IsWalkOf};
ghost use Rattle.words.specs.declared.command.Drawing.TheVariants.{Seed, Picks as Picking};

use crate::memory::Memory;
use chooser::{Draws, Picks};
use il_syntax::Program;
use std::alloc::Global;
use thread_core::laws::well_formed_programs_are_proper;
use values_undef::{NoMemory, Outcome, Turns};
use walker::laws::{draws_are_drawn, picks_are_picked};
use words::Drawing;

/// A walk whose choices are drawn from a seed.
#[tactic(auto, using(crate::proofs::OutputLemmas::are_served))]
pub(crate) fn drawn(
    alloc: Global,
    p: &Program,
    order: &[u32],
    seed: u64,
    steps: u64,
) -> Result<Outcome, NoMemory>
    requires well_formed { IsWellFormed p.now }
    requires some { 1 ≤ steps }
    requires few { steps ≤ 16384 }
    ensures walk { IfOk result (λ o. IsWalkOf order.now (Seed seed) steps p.now o.journal) }
    ensures ending { IfOk result (λ o. o.ending ≡ ending_in o.journal (length p.now.threads)) }
{
    well_formed_programs_are_proper();
    draws_are_drawn();
    let mut draws = Draws::new(alloc, seed, p.threads.len() as u32)?;
    walker::walk::<Memory, Draws>(alloc, p, order, &mut draws, steps)
}

/// A walk whose choices are picked by a list.
fn picked(
    alloc: Global,
    p: &Program,
    order: &[u32],
    list: &[u32],
    steps: u64,
) -> Result<Outcome, NoMemory>
    requires well_formed { IsWellFormed p.now }
    requires some { 1 ≤ steps }
    requires few { steps ≤ 16384 }
    ensures walk { IfOk result (λ o. IsWalkOf order.now (Picking list.now) steps p.now o.journal) }
    ensures ending { IfOk result (λ o. o.ending ≡ ending_in o.journal (length p.now.threads)) }
{
    well_formed_programs_are_proper();
    picks_are_picked();
    let turns = Vec::from_slice(alloc, list)?;
    let mut picks = Picks::new(Turns { turns });
    walker::walk::<Memory, Picks>(alloc, p, order, &mut picks, steps)
}

/// A walk of a program.
pub(crate) fn walked(
    alloc: Global,
    p: &Program,
    order: &[u32],
    draws: &Drawing,
    steps: u64,
) -> Result<Outcome, NoMemory>
    requires well_formed { IsWellFormed p.now }
    requires some { 1 ≤ steps }
    requires few { steps ≤ 16384 }
    ensures walk { IfOk result (λ o. IsWalkOf order.now draws.now steps p.now o.journal) }
    ensures ending { IfOk result (λ o. o.ending ≡ ending_in o.journal (length p.now.threads)) }
{
    match draws {
        Drawing::Seed { seed } => drawn(alloc, p, order, *seed, steps),
        Drawing::Picks { list } => picked(alloc, p, order, list.turns.as_slice(), steps),
    }
}
