//! Each store that is overwritten first becomes a `skip`.
ghost use Rattle.std.specs.Prelude.{◌≡◌, ◌≤◌, [], IfOk, slice_index_or};
ghost use Rattle.il_syntax.specs.Statements.{site_count};
ghost use Rattle.location_sets.specs.Sets.{has};
ghost use Rattle.dead_store.specs.Undead.{IsUndead};

use crate::walk::overwritten_after;
use il_syntax::{Function, Stmt};
use location_sets::{Set, has};
use rewriting::{Rewrite, rewritten};
use sqlite_items::Items;
use std::alloc::Global;
use values_undef::NoMemory;

/// What is overwritten first after each site.
#[derive(Drop)]
struct Overwritten {
    sets: Items<Set>,
}

impl Overwritten {
    /// Whether the set after a site has the location.
    fn has(&self, site: u32, x: u32) -> bool
        ensures { result ≡ has x (slice_index_or self.now.sets site []) }
    {
        match self.sets.as_slice().get(site as usize) {
            Some(set) => has(set.as_slice(), x),
            None => false,
        }
    }
}

impl Rewrite for Overwritten {
    ghost use Rattle.std.specs.Prelude.{[], ◌^◌, slice_index_or};
    ghost use Rattle.location_sets.specs.Sets.{has};
    ghost use Rattle.dead_store.specs.Undead.{dropped_leaf};

    ghost changed = { λ o site leaf. dropped_leaf (λ x. has x (slice_index_or o.sets site [])) leaf };

    ghost sites = { λ o. 2 ^ 32 };

    fn rewrite(&self, site: u32, statement: &Stmt) -> Option<Stmt> {
        match statement {
            Stmt::Store { x, .. } if self.has(site, *x) => Some(Stmt::Skip),
            _ => None,
        }
    }
}

/// The function with a `skip` in place of each store that every path overwrites before it is needed. All
/// sites are decided on the function as it came in. The only error is want of memory.
pub fn drop_dead_stores(alloc: Global, f: &Function) -> Result<Function, NoMemory>
    requires { site_count f.now.body.statements ≤ 4096 }
    ensures { IfOk result (λ g. IsUndead f.now g) }
{
    let sets = overwritten_after(alloc, &f.body)?;
    let new = rewritten(alloc, &Overwritten { sets }, f)?;
    Ok(new)
}
