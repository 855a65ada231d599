//! A target is walked beside its source.
ghost use Rattle.std.specs.Prelude.{◌≡◌, ◌≤◌, ◌<◌, true, false, List, length, IfOk, OnOk};
ghost use Rattle.il_syntax.specs.Statements.{head_of};
ghost use Rattle.il_paths.specs.Tree.{Tree, Empty, IfThen, WhileThen, tree_of, before_rest, tree_of_all};
ghost use Rattle.validator.specs.Walk as beside;
ghost use Rattle.validator.specs.Walked.{came_to, is_loop, is_plain};

use crate::role::Role;
use il_syntax::{Atom, Block, Stmt};
use rewriting::same_head;
use std::alloc::AllocError;

/// The registers that the target has and the source lacks: from the first up to the end, which is none.
#[derive(Clone, Copy)]
pub struct NewRegisters {
    pub first: usize,
    pub end: usize,
}

/// What the walk finds of a statement: its role, and whether it is an inserted load that no `while`
/// follows.
#[derive(Clone, Copy)]
pub struct Part {
    pub role: Role,
    pub stray: bool,
}

/// A load into a new register.
fn is_inserted(new: NewRegisters, statement: &Stmt) -> bool
    ensures { result ≡ beside.is_inserted new (head_of statement.now) }
{
    match statement {
        Stmt::Load { r, .. } => new.first <= *r as usize && (*r as usize) < new.end,
        _ => false,
    }
}

fn is_loop(statement: &Stmt) -> bool
    ensures { result ≡ is_loop (head_of statement.now) }
{
    matches!(statement, Stmt::While { .. })
}

/// Whether inserted loads come, and then a `while`.
fn before_loop(new: NewRegisters, statements: &[Stmt]) -> bool
    ensures { result ≡ beside.before_loop new (tree_of_all statements.now) }
{
    for statement in statements {
        if is_loop(statement) {
            return true;
        }
        if !is_inserted(new, statement) {
            return false;
        }
    }
    false
}

fn turned_role(r: u32, x: u32, statement: &Stmt) -> Option<Role>
    ensures { result ≡ beside.turned_role r x (head_of statement.now) }
{
    match statement {
        Stmt::Copy { r: s, a } if r == *s => Some(Role::Turned { x, a: *a }),
        _ => None,
    }
}

fn removed_role(x: u32, a: Atom, statement: &Stmt) -> Option<Role>
    ensures { result ≡ beside.removed_role x a (head_of statement.now) }
{
    match statement {
        Stmt::Skip => Some(Role::Removed { x, a }),
        _ => None,
    }
}

fn changed_role(partner: &Stmt, statement: &Stmt) -> Option<Role>
    ensures { result ≡ beside.changed_role (head_of partner.now) (head_of statement.now) }
{
    match partner {
        Stmt::Load { r, x } => turned_role(*r, *x, statement),
        Stmt::Store { x, a } => removed_role(*x, *a, statement),
        _ => None,
    }
}

/// The role of a statement whose partner in the source is this one.
fn role_of(partner: &Stmt, statement: &Stmt) -> Option<Role>
    ensures { result ≡ beside.role_of (head_of partner.now) (head_of statement.now) }
{
    if same_head(partner, statement) {
        Some(Role::Same)
    } else {
        changed_role(partner, statement)
    }
}

/// What the walk found of a statement that has a partner.
fn with_partner(role: Role) -> Part
    ensures { result ≡ beside.with_partner role }
{
    Part { role, stray: false }
}

/// What it found of an inserted load.
fn inserted_part(followed: bool) -> Part
    ensures { result ≡ beside.inserted_part followed }
{
    Part {
        role: Role::Inserted,
        stray: !followed,
    }
}

/// Walks a block of the target beside one of the source, and puts what it finds of each statement to the
/// end. Where it answers false the next site has no partner.
#[cycle(walks)]
pub(crate) fn walk_block(
    new: NewRegisters,
    source: &Block,
    target: &Block,
    parts: &mut Vec<Part>,
) -> Result<bool, AllocError>
    ensures { IfOk result (λ whole. beside.walk new (tree_of target.now) (tree_of source.now) parts.old.items ≡ came_to whole parts.new.items) }
{
    let partners = source.statements.as_slice();
    let statements = target.statements.as_slice();
    let mut next = 0;
    for (i, statement) in statements.iter().enumerate() {
        if is_inserted(new, statement) {
            let followed = before_loop(new, &statements[i + 1..]);
            parts.push(inserted_part(followed))?;
            continue;
        }
        match partners.get(next) {
            Some(partner) => {
                if !walk_statement(new, partner, statement, parts)? {
                    return Ok(false);
                }
                next += 1;
            }
            None => return Ok(false),
        }
    }
    Ok(next == partners.len())
}

/// The same for a statement that isn't inserted, and its partner, whatever comes after them.
#[cycle(walks)]
fn walk_statement(
    new: NewRegisters,
    partner: &Stmt,
    statement: &Stmt,
    parts: &mut Vec<Part>,
) -> Result<bool, AllocError>
    requires { beside.is_inserted new (head_of statement.now) ≡ false }
    ensures { IfOk result (λ whole. (rest more : Tree) → beside.walk new (before_rest statement.now rest) (before_rest partner.now more) parts.old.items ≡ beside.and_then (came_to whole parts.new.items) (beside.walk new rest more)) }
{
    match statement {
        Stmt::If { a, yes, no } => walk_if(new, partner, statement, *a, yes, no, parts),
        Stmt::While { a, body } => walk_while(new, partner, statement, *a, body, parts),
        _ => walk_plain(new, partner, statement, parts),
    }
}

#[cycle(walks)]
fn walk_if(
    new: NewRegisters,
    partner: &Stmt,
    statement: &Stmt,
    a: Atom,
    yes: &Block,
    no: &Block,
    parts: &mut Vec<Part>,
) -> Result<bool, AllocError>
    requires { (rest : Tree) → before_rest statement.now rest ≡ IfThen a (tree_of yes.now) (tree_of no.now) rest }
    ensures { IfOk result (λ whole. (rest more : Tree) → beside.walk new (before_rest statement.now rest) (before_rest partner.now more) parts.old.items ≡ beside.and_then (came_to whole parts.new.items) (beside.walk new rest more)) }
{
    match partner {
        Stmt::If {
            a: b,
            yes: one,
            no: other,
        } if *b == a => {
            parts.push(with_partner(Role::Same))?;
            if !walk_block(new, one, yes, parts)? {
                return Ok(false);
            }
            walk_block(new, other, no, parts)
        }
        _ => Ok(false),
    }
}

#[cycle(walks)]
fn walk_while(
    new: NewRegisters,
    partner: &Stmt,
    statement: &Stmt,
    a: Atom,
    body: &Block,
    parts: &mut Vec<Part>,
) -> Result<bool, AllocError>
    requires { (rest : Tree) → before_rest statement.now rest ≡ WhileThen a (tree_of body.now) rest }
    ensures { IfOk result (λ whole. (rest more : Tree) → beside.walk new (before_rest statement.now rest) (before_rest partner.now more) parts.old.items ≡ beside.and_then (came_to whole parts.new.items) (beside.walk new rest more)) }
{
    match partner {
        Stmt::While { a: b, body: turn } if *b == a => {
            parts.push(with_partner(Role::Same))?;
            if !walk_block(new, turn, body, parts)? {
                return Ok(false);
            }
            Ok(true)
        }
        _ => Ok(false),
    }
}

fn walk_plain(
    new: NewRegisters,
    partner: &Stmt,
    statement: &Stmt,
    parts: &mut Vec<Part>,
) -> Result<bool, AllocError>
    requires plain { is_plain (head_of statement.now) ≡ true }
    requires own { beside.is_inserted new (head_of statement.now) ≡ false }
    ensures { IfOk result (λ whole. (rest more : Tree) → beside.walk new (before_rest statement.now rest) (before_rest partner.now more) parts.old.items ≡ beside.and_then (came_to whole parts.new.items) (beside.walk new rest more)) }
{
    match role_of(partner, statement) {
        Some(role) => {
            parts.push(with_partner(role))?;
            Ok(true)
        }
        None => Ok(false),
    }
}
