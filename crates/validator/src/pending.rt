//! Which locations are pending, by one walk for all of them.
ghost use Rattle.std.specs.Prelude.{◌≡◌, ◌<◌, ◌+◌, ◌^◌, ◌++◌, ◌∷◌, [], ℕ, Bool, false, length, IfOk, OnOk};
ghost use Rattle.il_syntax.specs.Statements.{head_of};
ghost use Rattle.il_paths.specs.Tree.{Empty, tree_of, before_rest, sites_of};
ghost use Rattle.il_paths.specs.Code.{placed};
ghost use Rattle.location_sets.specs.Sets.{has, column};
ghost use Rattle.validator.specs.Roles.{pending_after_role};
ghost use Rattle.validator.specs.Walk.{part_at, role_at};
ghost use Rattle.validator.specs.Pending.{pending_after, pending_within, ArePending};

use crate::role::Role;
use crate::walk::Part;
use il_syntax::{Block, Stmt};
use location_sets::{Set, either, put, without};
use sqlite_items::Items;
use std::alloc::Global;
use values_undef::NoMemory;

/// The locations that some path says pending: before each site, and at the end.
#[derive(Drop)]
pub struct Pending {
    pub before: Items<Set>,
    pub end: Set,
}

/// What is pending after some statements, and the site after them.
#[derive(Drop)]
struct Passed {
    set: Set,
    site: usize,
}

/// What the walk beside found of the statement at a site.
pub(crate) fn part_at(parts: &[Part], site: usize) -> Part
    ensures { result ≡ part_at parts.now site }
{
    match parts.get(site) {
        Some(part) => *part,
        None => Part {
            role: Role::Same,
            stray: false,
        },
    }
}

/// The role of the statement at a site.
pub(crate) fn role_at(parts: &[Part], site: usize) -> Role
    ensures { result ≡ role_at parts.now site }
{
    part_at(parts, site).role
}

/// What is pending after a statement with a role, its blocks left aside.
fn set_after(alloc: Global, role: Role, statement: &Stmt, set: &[u32]) -> Result<Set, NoMemory>
    ensures { IfOk result (λ new. (x : ℕ) → has x new ≡ pending_after_role x role (head_of statement.now) (has x set.now)) }
{
    match role {
        Role::Same => match statement {
            Stmt::Store { x, .. } => Ok(without(alloc, set, *x)?),
            _ => Ok(Items::from_slice(alloc, set)?),
        },
        Role::Removed { x, .. } => {
            let mut new = Items::from_slice(alloc, set)?;
            put(&mut new, x)?;
            Ok(new)
        }
        Role::Turned { .. } | Role::Inserted => Ok(Items::from_slice(alloc, set)?),
    }
}

/// What is pending after a block, on some path, where the block begins at a site.
#[cycle(exits)]
fn exit_block(
    alloc: Global,
    parts: &[Part],
    block: &Block,
    site: usize,
    before: &[u32],
) -> Result<Passed, NoMemory>
    requires { site + sites_of (tree_of block.now) < 2 ^ 32 }
    ensures pending { IfOk result (λ after. (x : ℕ) → has x after.set ≡ pending_after (role_at parts.now) x (placed site (tree_of block.now)) (has x before.now)) }
    ensures site { IfOk result (λ after. after.site ≡ site + sites_of (tree_of block.now)) }
{
    let mut at = site;
    let mut set = Items::from_slice(alloc, before)?;
    for statement in block.statements.as_slice() {
        let after = exit(alloc, parts, statement, at, set.as_slice())?;
        at = after.site;
        set = after.set;
    }
    Ok(Passed { set, site: at })
}

/// The same for a statement. One turn of a loop is enough.
#[cycle(exits)]
fn exit(
    alloc: Global,
    parts: &[Part],
    statement: &Stmt,
    site: usize,
    before: &[u32],
) -> Result<Passed, NoMemory>
    requires { site + sites_of (before_rest statement.now Empty) < 2 ^ 32 }
    ensures pending { IfOk result (λ after. (x : ℕ) → has x after.set ≡ pending_after (role_at parts.now) x (placed site (before_rest statement.now Empty)) (has x before.now)) }
    ensures site { IfOk result (λ after. after.site ≡ site + sites_of (before_rest statement.now Empty)) }
{
    match statement {
        Stmt::If { yes, no, .. } => {
            let own = set_after(alloc, role_at(parts, site), statement, before)?;
            let one = exit_block(alloc, parts, yes, site + 1, own.as_slice())?;
            let other = exit_block(alloc, parts, no, one.site, own.as_slice())?;
            let set = either(alloc, one.set.as_slice(), other.set.as_slice())?;
            Ok(Passed {
                set,
                site: other.site,
            })
        }
        Stmt::While { body, .. } => {
            let own = set_after(alloc, role_at(parts, site), statement, before)?;
            let turn = exit_block(alloc, parts, body, site + 1, own.as_slice())?;
            let low = either(alloc, before, turn.set.as_slice())?;
            let set = set_after(alloc, role_at(parts, site), statement, low.as_slice())?;
            Ok(Passed {
                set,
                site: turn.site,
            })
        }
        _ => {
            let set = set_after(alloc, role_at(parts, site), statement, before)?;
            Ok(Passed {
                set,
                site: site + 1,
            })
        }
    }
}

/// Puts a copy of the set to the end.
fn push_set(alloc: Global, set: &[u32], sets: &mut Items<Set>) -> Result<(), NoMemory>
    ensures { OnOk result ((x : ℕ) → column x sets.new ≡ column x sets.old ++ has x set.now ∷ []) }
{
    sets.push(Items::from_slice(alloc, set)?)?;
    Ok(())
}

/// Puts the sets before the sites of a block to the end, and answers what is pending after it.
#[cycle(fills)]
fn fill_block(
    alloc: Global,
    parts: &[Part],
    block: &Block,
    site: usize,
    before: &[u32],
    sets: &mut Items<Set>,
) -> Result<Passed, NoMemory>
    requires { site + sites_of (tree_of block.now) < 2 ^ 32 }
    ensures pending { IfOk result (λ after. (x : ℕ) → has x after.set ≡ pending_after (role_at parts.now) x (placed site (tree_of block.now)) (has x before.now)) }
    ensures site { IfOk result (λ after. after.site ≡ site + sites_of (tree_of block.now)) }
    ensures sets { OnOk result ((x : ℕ) → column x sets.new ≡ column x sets.old ++ pending_within (role_at parts.now) x (placed site (tree_of block.now)) (has x before.now)) }
{
    let mut at = site;
    let mut set = Items::from_slice(alloc, before)?;
    for statement in block.statements.as_slice() {
        let after = fill(alloc, parts, statement, at, set.as_slice(), sets)?;
        at = after.site;
        set = after.set;
    }
    Ok(Passed { set, site: at })
}

/// The same for a statement.
#[cycle(fills)]
fn fill(
    alloc: Global,
    parts: &[Part],
    statement: &Stmt,
    site: usize,
    before: &[u32],
    sets: &mut Items<Set>,
) -> Result<Passed, NoMemory>
    requires { site + sites_of (before_rest statement.now Empty) < 2 ^ 32 }
    ensures pending { IfOk result (λ after. (x : ℕ) → has x after.set ≡ pending_after (role_at parts.now) x (placed site (before_rest statement.now Empty)) (has x before.now)) }
    ensures site { IfOk result (λ after. after.site ≡ site + sites_of (before_rest statement.now Empty)) }
    ensures sets { OnOk result ((x : ℕ) → column x sets.new ≡ column x sets.old ++ pending_within (role_at parts.now) x (placed site (before_rest statement.now Empty)) (has x before.now)) }
{
    match statement {
        Stmt::If { yes, no, .. } => {
            push_set(alloc, before, sets)?;
            let own = set_after(alloc, role_at(parts, site), statement, before)?;
            let one = fill_block(alloc, parts, yes, site + 1, own.as_slice(), sets)?;
            let other = fill_block(alloc, parts, no, one.site, own.as_slice(), sets)?;
            let set = either(alloc, one.set.as_slice(), other.set.as_slice())?;
            Ok(Passed {
                set,
                site: other.site,
            })
        }
        Stmt::While { body, .. } => {
            let own = set_after(alloc, role_at(parts, site), statement, before)?;
            let turn = exit_block(alloc, parts, body, site + 1, own.as_slice())?;
            let low = either(alloc, before, turn.set.as_slice())?;
            push_set(alloc, low.as_slice(), sets)?;
            let set = set_after(alloc, role_at(parts, site), statement, low.as_slice())?;
            let turned = fill_block(alloc, parts, body, site + 1, set.as_slice(), sets)?;
            Ok(Passed {
                set,
                site: turned.site,
            })
        }
        _ => {
            push_set(alloc, before, sets)?;
            let set = set_after(alloc, role_at(parts, site), statement, before)?;
            Ok(Passed {
                set,
                site: site + 1,
            })
        }
    }
}

/// The pending locations of merged code: before each of its sites and at its end, over all paths from its
/// beginning.
pub(crate) fn pending_of(alloc: Global, parts: &[Part], merged: &Block) -> Result<Pending, NoMemory>
    requires { sites_of (tree_of merged.now) < 2 ^ 32 }
    ensures { IfOk result (λ pending. ArePending (tree_of merged.now) (role_at parts.now) pending) }
{
    let mut before = Items::new(alloc);
    let none = Items::new(alloc);
    let after = fill_block(alloc, parts, merged, 0, none.as_slice(), &mut before)?;
    Ok(Pending {
        before,
        end: after.set,
    })
}
