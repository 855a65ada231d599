//! The run of one seed.
ghost use Rattle.std.specs.Prelude.{IfOk};
ghost use Rattle.litmus.specs.Sampled.{CanBeSampled, IsDrawnWalk};
ghost use Rattle.litmus.specs.Table.{IsSeedRun};

use crate::order::drawn_order;
use crate::outcome::{RunOutcome, outcome_of};
use chooser::Draws;
use il_syntax::Program;
use message_memory::MessageMemory;
use std::alloc::Global;
use std::marker::Model;
use thread_core::laws::well_formed_programs_are_proper;
use values_undef::{Journal, NoMemory, Outcome};
use walker::laws::draws_are_drawn;
use walker::walk;

/// A run with what it comes to.
#[derive(Drop)]
pub(crate) struct SampledRun {
    pub(crate) journal: Journal,
    pub(crate) outcome: RunOutcome,
}

impl Model for SampledRun {
    ghost use Rattle.litmus.specs.Table.{Run};

    ghost Value = { Run };

    ghost view = { λ r. record { journal = r.journal; outcome = r.outcome } };
}

/// The walk of a program in these turns, whose choices are drawn from a seed.
#[tactic(auto, using(crate::proofs::Orders::are_served))]
fn walked<M: MessageMemory>(
    alloc: Global,
    p: &Program,
    order: &[u32],
    seed: u64,
    steps: u64,
) -> Result<Outcome, NoMemory>
    requires { CanBeSampled p.now steps }
    ensures { IfOk result (λ o. IsDrawnWalk p.now order.now seed steps o.journal) }
{
    well_formed_programs_are_proper();
    draws_are_drawn();
    let mut draws = Draws::new(alloc, seed, p.threads.len() as u32)?;
    walk::<M, Draws>(alloc, p, order, &mut draws, steps)
}

/// The run of a seed.
pub(crate) fn sampled<M: MessageMemory>(
    alloc: Global,
    p: &Program,
    seed: u64,
    steps: u64,
) -> Result<SampledRun, NoMemory>
    requires { CanBeSampled p.now steps }
    ensures { IfOk result (λ r. IsSeedRun p.now seed steps r) }
{
    let threads = p.threads.len() as u32;
    let order = drawn_order(alloc, seed, threads)?;
    let Outcome { journal, .. } = walked::<M>(alloc, p, order.as_slice(), seed, steps)?;
    let outcome = outcome_of(alloc, &journal, threads)?;
    Ok(SampledRun { journal, outcome })
}
