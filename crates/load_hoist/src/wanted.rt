//! Which loads are wanted before a loop.
ghost use Rattle.std.specs.Prelude.{◌≡◌};
ghost use Rattle.std.specs.List.{list_any};
ghost use Rattle.il_syntax.specs.Statements.{head_of, heads_of, heads_of_all};
ghost use Rattle.il_paths.specs.Tree.{tree_of};
ghost use Rattle.load_hoist.specs.Introduced as spec;

use il_paths::acquires;
use il_syntax::{Block, Stmt};

/// Whether the statement is a load of the location.
fn loads(statement: &Stmt, x: u32) -> bool
    ensures { result ≡ spec.loads x (head_of statement.now) }
{
    match statement {
        Stmt::Load { x: y, .. } => *y == x,
        _ => false,
    }
}

/// Whether the statement keeps loads of the location in its loop: a store to it, an acquire or a call.
fn forbids(statement: &Stmt, x: u32) -> bool
    ensures { result ≡ spec.forbids x (head_of statement.now) }
{
    match statement {
        Stmt::Store { x: y, .. } => *y == x,
        Stmt::Call { .. } => true,
        _ => acquires(statement),
    }
}

/// Whether one of the statements loads the location, those of blocks among them.
#[cycle(loads)]
fn some_loads(statements: &[Stmt], x: u32) -> bool
    ensures { result ≡ list_any (spec.loads x) (heads_of_all statements.now) }
{
    for statement in statements {
        if loads_within(statement, x) {
            return true;
        }
    }
    false
}

#[cycle(loads)]
fn loads_within(statement: &Stmt, x: u32) -> bool
    ensures { result ≡ list_any (spec.loads x) (heads_of statement.now) }
{
    match statement {
        Stmt::If { yes, no, .. } => {
            if some_loads(yes.statements.as_slice(), x) {
                return true;
            }
            some_loads(no.statements.as_slice(), x)
        }
        Stmt::While { body, .. } => some_loads(body.statements.as_slice(), x),
        _ => loads(statement, x),
    }
}

/// Whether one of the statements keeps loads of the location in its loop, those of blocks among them.
#[cycle(forbids)]
fn some_forbids(statements: &[Stmt], x: u32) -> bool
    ensures { result ≡ list_any (spec.forbids x) (heads_of_all statements.now) }
{
    for statement in statements {
        if forbids_within(statement, x) {
            return true;
        }
    }
    false
}

#[cycle(forbids)]
fn forbids_within(statement: &Stmt, x: u32) -> bool
    ensures { result ≡ list_any (spec.forbids x) (heads_of statement.now) }
{
    match statement {
        Stmt::If { yes, no, .. } => {
            if some_forbids(yes.statements.as_slice(), x) {
                return true;
            }
            some_forbids(no.statements.as_slice(), x)
        }
        Stmt::While { body, .. } => some_forbids(body.statements.as_slice(), x),
        _ => forbids(statement, x),
    }
}

/// Whether a load of the location is wanted before a loop with this body: the body has one, and nothing that
/// keeps it there.
pub(crate) fn is_wanted(body: &Block, x: u32) -> bool
    ensures { result ≡ spec.is_wanted x (tree_of body.now) }
{
    let statements = body.statements.as_slice();
    if !some_loads(statements, x) {
        return false;
    }
    !some_forbids(statements, x)
}
