//! The order of the turns of a run.
ghost use Rattle.std.specs.Prelude.{◌≡◌, ◌≤◌, IfOk};
ghost use Rattle.litmus.specs.Sampled.{drawn_order};

use chooser::{Chooser, Draw};
use std::alloc::Global;
use values_undef::NoMemory;

/// The stream of the generator from which turns are drawn.
const ORDER_STREAM: u32 = 2000;

/// How many turns are drawn.
const DRAWN_TURNS: u32 = 256;

/// The turns that the seed draws among so many threads.
pub(crate) fn drawn_order(alloc: Global, seed: u64, threads: u32) -> Result<Vec<u32>, NoMemory>
    requires { 1 ≤ threads }
    ensures { IfOk result (λ order. order.items ≡ drawn_order seed threads) }
{
    let mut draw = Draw::new(seed, ORDER_STREAM);
    let mut order = Vec::new(alloc);
    for _turn in 0..DRAWN_TURNS {
        order.push(draw.pick(ORDER_STREAM, u64::from(threads)) as u32)?;
    }
    Ok(order)
}
