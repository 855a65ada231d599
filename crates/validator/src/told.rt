//! The faults of a target that was walked to its end.
ghost use Rattle.std.specs.Prelude.{◌≡◌, ℕ, ◌<◌, ◌≤◌, ◌++◌, true, false, Some, None, OnOk};
ghost use Rattle.il_syntax.specs.Statements.{head_of};
ghost use Rattle.il_paths.specs.Tree.{Empty, tree_of, before_rest};
ghost use Rattle.validator.specs.Told as told;
ghost use Rattle.validator.specs.Pending.{set_at, is_none};
ghost use Rattle.validator.specs.Faults.{is_turned};

use crate::fault::{Fault, Judged};
use crate::pending::{Pending, part_at};
use crate::role::Role;
use crate::walk::Part;
use flow_facts::{Level, Table};
use il_paths::releases;
use il_syntax::{Block, Stmt};
use location_sets::has;
use std::alloc::AllocError;

/// What a statement must find settled: nothing, one location, or all of them.
#[derive(Clone, Copy)]
pub enum Need {
    Nothing,
    Value { x: u32 },
    Release,
    Call,
}

fn need_of(statement: &Stmt) -> Need
    ensures { result ≡ told.need_of (head_of statement.now) }
{
    match statement {
        Stmt::Load { x, .. } => Need::Value { x: *x },
        Stmt::AtomicStore { .. } | Stmt::Update { .. } | Stmt::Fence { .. }
            if releases(statement) => Need::Release,
        Stmt::Call { .. } => Need::Call,
        _ => Need::Nothing,
    }
}

/// Puts the needs of a block to the end, in text order.
#[cycle(needs)]
pub(crate) fn list_needs(block: &Block, needs: &mut Vec<Need>) -> Result<(), AllocError>
    ensures { OnOk result (needs.new.items ≡ needs.old.items ++ told.needs_of (tree_of block.now)) }
{
    for statement in block.statements.as_slice() {
        list_needs_by(statement, needs)?;
    }
    Ok(())
}

/// The same for a statement.
#[cycle(needs)]
fn list_needs_by(statement: &Stmt, needs: &mut Vec<Need>) -> Result<(), AllocError>
    ensures { OnOk result (needs.new.items ≡ needs.old.items ++ told.needs_of (before_rest statement.now Empty)) }
{
    needs.push(need_of(statement))?;
    match statement {
        Stmt::If { yes, no, .. } => {
            list_needs(yes, needs)?;
            list_needs(no, needs)?;
        }
        Stmt::While { body, .. } => {
            list_needs(body, needs)?;
        }
        _ => {}
    }
    Ok(())
}

fn need_at(needs: &[Need], site: u32) -> Need
    ensures { result ≡ told.need_at needs.now site }
{
    match needs.get(site as usize) {
        Some(need) => *need,
        None => Need::Nothing,
    }
}

impl Pending {
    /// The locations that some path to the site says pending.
    fn set_at(&self, site: u32) -> &[u32]
        ensures { result.now ≡ set_at self.now.before site }
    {
        match self.before.get(site as usize) {
            Some(set) => set.as_slice(),
            None => &[],
        }
    }
}

fn is_none(set: &[u32]) -> bool
    ensures { result ≡ is_none set.now }
{
    match set {
        [] => true,
        [_, ..] => false,
    }
}

fn is_turned(role: Role) -> bool
    ensures { result ≡ is_turned role }
{
    matches!(role, Role::Turned { .. })
}

fn is_nothing(level: Level) -> bool
    ensures { result ≡ told.is_nothing level }
{
    matches!(level, Level::Nothing)
}

fn is_unknown(table: &Table, role: Role, site: u32) -> bool
    ensures { result ≡ told.unknown_at table.now role site }
{
    match role {
        Role::Turned { x, a } => is_nothing(table.level(site, x, a)),
        _ => false,
    }
}

fn unsettled(set: &[u32], role: Role, need: Need) -> Option<Fault>
    ensures { result ≡ told.unsettled_at set.now role need }
{
    match need {
        Need::Value { x } if !is_turned(role) && has(set, x) => Some(Fault::V3),
        Need::Release if !is_none(set) => Some(Fault::V4),
        Need::Call if !is_none(set) => Some(Fault::V5),
        _ => None,
    }
}

fn unfollowed(stray: bool) -> Option<Fault>
    ensures { result ≡ told.unfollowed stray }
{
    if stray { Some(Fault::V7) } else { None }
}

/// The fault with the lowest number at a site.
fn fault_at(
    table: &Table,
    parts: &[Part],
    needs: &[Need],
    pending: &Pending,
    site: u32,
) -> Option<Fault>
    ensures { result ≡ told.fault_at table.now parts.now needs.now pending.now site }
{
    let part = part_at(parts, site as usize);
    if is_unknown(table, part.role, site) {
        return Some(Fault::V2);
    }
    match unsettled(pending.set_at(site), part.role, need_at(needs, site)) {
        Some(fault) => Some(fault),
        None => unfollowed(part.stray),
    }
}

/// The first fault that the tables tell.
pub(crate) fn first_fault(
    table: &Table,
    parts: &[Part],
    needs: &[Need],
    pending: &Pending,
    count: u32,
) -> Judged
    ensures { told.IsTold table.now parts.now needs.now pending.now count result }
{
    for site in 0..count {
        if let Some(why) = fault_at(table, parts, needs, pending, site) {
            return Judged::No { site, why };
        }
    }
    if is_none(pending.end.as_slice()) {
        Judged::Yes
    } else {
        Judged::No {
            site: count,
            why: Fault::V6,
        }
    }
}
