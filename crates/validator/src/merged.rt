//! Merged code: the target with its turned loads and its removed stores as they were.
ghost use Rattle.std.specs.Prelude.{◌≡◌, ◌≤◌, length, IfOk};
ghost use Rattle.il_syntax.specs.Statements.{site_count};
ghost use Rattle.il_paths.specs.Tree.{tree_of};
ghost use Rattle.validator.specs.Merged.{merged};

use crate::pending::role_at;
use crate::role::Role;
use crate::walk::Part;
use il_syntax::{Function, Stmt};
use rewriting::{Rewrite, rewritten};
use std::alloc::Global;
use values_undef::NoMemory;

/// What the walk beside found of each statement of a target.
#[derive(Drop)]
pub(crate) struct Parts {
    pub(crate) list: Vec<Part>,
}

impl Rewrite for Parts {
    ghost use Rattle.std.specs.Prelude.{length};
    ghost use Rattle.validator.specs.Walk.{role_at};
    ghost use Rattle.validator.specs.Merged.{restored_leaf};

    ghost changed = { λ parts site leaf. restored_leaf (role_at parts.list.items site) leaf };

    ghost sites = { λ parts. length parts.list.items };

    fn rewrite(&self, site: u32, statement: &Stmt) -> Option<Stmt> {
        match statement {
            Stmt::Skip => match role_at(self.list.as_slice(), site as usize) {
                Role::Removed { x, a } => Some(Stmt::Store { x, a }),
                _ => None,
            },
            Stmt::Copy { r, .. } => match role_at(self.list.as_slice(), site as usize) {
                Role::Turned { x, .. } => Some(Stmt::Load { r: *r, x }),
                _ => None,
            },
            _ => None,
        }
    }
}

/// The function whose body is the merged code.
pub(crate) fn merged_function(
    alloc: Global,
    parts: &Parts,
    g: &Function,
) -> Result<Function, NoMemory>
    requires small { site_count g.now.body.statements ≤ 4096 }
    requires whole { length parts.now.list.items ≡ site_count g.now.body.statements }
    ensures { IfOk result (λ m. tree_of m.body ≡ merged g.now parts.now.list.items) }
{
    rewritten(alloc, parts, g)
}
