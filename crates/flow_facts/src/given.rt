//! The pairs that the statements of a block give.
ghost use Rattle.std.specs.Prelude.{◌≡◌, ◌++◌, OnOk};
ghost use Rattle.il_paths.specs.Tree.{Empty, tree_of, before_rest};
ghost use Rattle.flow_facts.specs.Rounds.{given_of};

use il_syntax::{Atom, Block, Stmt};
use sqlite_items::Items;
use values_undef::NoMemory;

/// A location and an atom.
#[derive(Clone, Copy)]
pub struct Pair {
    pub x: u32,
    pub a: Atom,
}

/// Puts the pairs of a block to the end, in text order.
#[cycle(given)]
pub(crate) fn list_given(block: &Block, given: &mut Items<Pair>) -> Result<(), NoMemory>
    ensures { OnOk result (given.new ≡ given.old ++ given_of (tree_of block.now)) }
{
    for statement in block.statements.as_slice() {
        list_given_by(statement, given)?;
    }
    Ok(())
}

/// The same for a statement.
#[cycle(given)]
fn list_given_by(statement: &Stmt, given: &mut Items<Pair>) -> Result<(), NoMemory>
    ensures { OnOk result (given.new ≡ given.old ++ given_of (before_rest statement.now Empty)) }
{
    match statement {
        Stmt::Store { x, a } => {
            given.push(Pair { x: *x, a: *a })?;
        }
        Stmt::Load { r, x } => {
            given.push(Pair {
                x: *x,
                a: Atom::Reg(*r),
            })?;
        }
        Stmt::If { yes, no, .. } => {
            list_given(yes, given)?;
            list_given(no, given)?;
        }
        Stmt::While { body, .. } => {
            list_given(body, given)?;
        }
        _ => {}
    }
    Ok(())
}
