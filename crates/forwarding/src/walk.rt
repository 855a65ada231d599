//! The one walk of both kinds of forwarding.
ghost use Rattle.std.specs.Prelude.{◌≡◌, ◌≤◌, IfOk, MatchOption};
ghost use Rattle.il_syntax.specs.Statements.{site_count};
ghost use Rattle.il_paths.specs.Tree.{Leaf, leaf_statement};
ghost use Rattle.forwarding.specs.Forwarded.{IsForwarded, forwarded_leaf};
ghost use Rattle.forwarding.specs.BestOf.{best_at};

use flow_facts::{Facts, Kind, Table};
use il_syntax::{Atom, Function, Stmt};
use rewriting::{Rewrite, rewritten};
use std::alloc::Global;
use values_undef::NoMemory;

/// The table by which loads are changed.
#[derive(Drop)]
struct Forwarding {
    table: Table,
}

impl Forwarding {
    fn best(&self, site: u32, x: u32) -> Option<Atom>
        ensures { result ≡ best_at self.now.table site x }
    {
        self.table.best(site, x)
    }
}

impl Rewrite for Forwarding {
    ghost use Rattle.forwarding.specs.Forwarded.{forwarded_leaf};
    ghost use Rattle.forwarding.specs.BestOf.{best_at};

    ghost changed = { λ forwarding site leaf. forwarded_leaf (best_at forwarding.table site) leaf };

    ghost sites = { λ forwarding. 4096 };

    fn rewrite(&self, site: u32, statement: &Stmt) -> Option<Stmt> {
        match statement {
            Stmt::Load { r, x } => {
                let a = self.best(site, *x)?;
                Some(Stmt::Copy { r: *r, a })
            }
            _ => None,
        }
    }
}

/// The function with each na load whose location has an atom above nothing, over all paths to the load,
/// turned into a copy of the least such atom, in facts of this kind. All sites are decided on the function
/// as it comes in.
pub fn forward<F: Facts>(
    alloc: Global,
    facts: &F,
    f: &Function,
    kind: Kind,
) -> Result<Function, NoMemory>
    requires { site_count f.now.body.statements ≤ 4096 }
    ensures { IfOk result (λ new. IsForwarded kind f.now new) }
{
    let table = facts.before(alloc, f, kind)?;
    Ok(rewritten(alloc, &Forwarding { table }, f)?)
}
