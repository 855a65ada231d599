//! Which locations are overwritten before they are needed, all at once, by a walk from the end.
ghost use Rattle.std.specs.Prelude.{IfOk};
ghost use Rattle.il_paths.specs.Tree.{tree_of};
ghost use Rattle.dead_store.specs.Overwritten.{AreOverwritten};

use backward_sets::{Backward, sets_after};
use il_paths::releases;
use il_syntax::{Block, Stmt};
use location_sets::{Set, both, put, without};
use sqlite_items::Items;
use std::alloc::Global;
use values_undef::NoMemory;

/// The walk that finds what every path overwrites first.
struct Overwriting;

impl Backward for Overwriting {
    ghost use Rattle.path_meets.specs.Chain.{must_rank};
    ghost use Rattle.dead_store.specs.Backward.{overwritten_change};

    ghost rank = { λ w. must_rank };

    ghost change = { λ w. overwritten_change };

    fn set_before(&self, alloc: Global, statement: &Stmt, set: &[u32]) -> Result<Set, NoMemory> {
        match statement {
            Stmt::Store { x, .. } => {
                let mut new = Items::from_slice(alloc, set)?;
                put(&mut new, *x)?;
                Ok(new)
            }
            Stmt::Load { x, .. } => Ok(without(alloc, set, *x)?),
            Stmt::Call { .. } => Ok(Items::new(alloc)),
            _ => {
                if releases(statement) {
                    return Ok(Items::new(alloc));
                }
                Ok(Items::from_slice(alloc, set)?)
            }
        }
    }

    fn meet(&self, alloc: Global, one: &[u32], other: &[u32]) -> Result<Set, NoMemory> {
        Ok(both(alloc, one, other)?)
    }
}

/// Of each site of the block, which locations every path from just after it overwrites first.
#[tactic(auto, using(crate::proofs::OverwrittenLaws::keeps_order))]
pub fn overwritten_after(alloc: Global, block: &Block) -> Result<Items<Set>, NoMemory>
    ensures { IfOk result (λ sets. AreOverwritten (tree_of block.now) sets) }
{
    let none = Items::new(alloc);
    Ok(sets_after(alloc, &Overwriting, block, none.as_slice())?)
}
