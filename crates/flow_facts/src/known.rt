//! Rows: the pairs above nothing at one place of a walk.
//!
//! Along a path at most one pair of a location was made by a store, and at most one of a register by a
//! load, and a statement puts no pair to a row that says as much of it already. So a row is short: at most
//! as long as there are locations and registers. No clause says so.
ghost use Rattle.std.specs.Prelude.{◌≡◌, ℕ, IfOk, OnOk};
ghost use Rattle.il_syntax.specs.Statements.{head_of};
ghost use Rattle.il_syntax.specs.declared.statement.Atom.{Atom};
ghost use Rattle.path_meets.specs.Walks.{meet};
ghost use Rattle.flow_facts.specs.Levels.{rank_of, level_change};
ghost use Rattle.flow_facts.specs.Rows.{higher, level_of, level_in, with_level};
ghost use Rattle.flow_facts.specs.declared.level.Level.{Level};
ghost use Rattle.flow_facts.specs.declared.level.Level.TheVariants.{Nothing};

use crate::level::{Kind, Level};
use crate::transfer::Transfer;
use il_syntax::{Atom, Stmt};
use sqlite_items::Items;
use std::alloc::Global;
use values_undef::NoMemory;

/// A pair of an na location and an atom, and its level.
#[derive(Clone, Copy)]
pub struct Known {
    pub x: u32,
    pub a: Atom,
    pub level: Level,
}

/// The pairs above nothing.
pub type Row = Items<Known>;

impl Known {
    /// The level of a pair by this entry alone.
    fn level_of(&self, x: u32, a: Atom) -> Level
        ensures { result ≡ level_of self.now x a }
    {
        if self.x == x && a == self.a {
            self.level
        } else {
            Level::Nothing
        }
    }

    /// The entry at another level.
    pub fn with_level(&self, level: Level) -> Known
        ensures { result ≡ with_level self.now level }
    {
        Known {
            x: self.x,
            a: self.a,
            level,
        }
    }

    /// The entry after a statement.
    fn after(&self, kind: Kind, statement: &Stmt) -> Known
        ensures { result ≡ with_level self.now (level_change kind self.now.x self.now.a (head_of statement.now) self.now.level) }
    {
        self.with_level(Transfer::of(kind, self.x, self.a, statement).after(self.level))
    }

    /// The entry at the lower of its level and that in a row.
    fn met(&self, other: &[Known]) -> Known
        ensures { result ≡ with_level self.now (meet Level rank_of self.now.level (level_in other.now self.now.x self.now.a)) }
    {
        self.with_level(self.level.lower(level_in(other, self.x, self.a)))
    }
}

/// The level of a pair in a row.
pub fn level_in(row: &[Known], x: u32, a: Atom) -> Level
    ensures { result ≡ level_in row.now x a }
{
    let mut level = Level::Nothing;
    for known in row {
        level = level.higher(known.level_of(x, a));
    }
    level
}

/// Puts an entry to the end, where it is above nothing.
pub fn push_known(row: &mut Row, known: Known) -> Result<(), NoMemory>
    ensures { OnOk result ((x : ℕ) (a : Atom) → level_in row.new x a ≡ higher (level_in row.old x a) (level_of known x a)) }
{
    if known.level == Level::Nothing {
        return Ok(());
    }
    row.push(known)?;
    Ok(())
}

/// Puts an entry to the end, where the row doesn't say as much already.
#[tactic(auto, using(crate::proofs::RowLaws::level_in_said))]
fn push_new(row: &mut Row, known: Known) -> Result<(), NoMemory>
    ensures { OnOk result ((x : ℕ) (a : Atom) → level_in row.new x a ≡ higher (level_in row.old x a) (level_of known x a)) }
{
    let level = level_in(row.as_slice(), known.x, known.a);
    if level.higher(known.level) == level {
        return Ok(());
    }
    push_known(row, known)
}

/// Puts the pair that a statement makes of nothing to the end, if there is one.
fn push_given(row: &mut Row, kind: Kind, statement: &Stmt) -> Result<(), NoMemory>
    ensures { OnOk result ((x : ℕ) (a : Atom) → level_in row.new x a ≡ higher (level_in row.old x a) (level_change kind x a (head_of statement.now) Nothing)) }
{
    match statement {
        Stmt::Store { x, a } => {
            let level = if kind.stores_give() {
                Level::Fresh
            } else {
                Level::Nothing
            };
            push_new(
                row,
                Known {
                    x: *x,
                    a: *a,
                    level,
                },
            )
        }
        Stmt::Load { r, x } => {
            let level = if kind.loads_give() {
                Level::Held
            } else {
                Level::Nothing
            };
            push_new(
                row,
                Known {
                    x: *x,
                    a: Atom::Reg(*r),
                    level,
                },
            )
        }
        _ => Ok(()),
    }
}

/// The row after a statement, its blocks left aside.
pub fn row_after(
    alloc: Global,
    kind: Kind,
    row: &[Known],
    statement: &Stmt,
) -> Result<Row, NoMemory>
    ensures { IfOk result (λ new. (x : ℕ) (a : Atom) → level_in new x a ≡ level_change kind x a (head_of statement.now) (level_in row.now x a)) }
{
    let mut new = Items::new(alloc);
    for known in row {
        push_known(&mut new, known.after(kind, statement))?;
    }
    push_given(&mut new, kind, statement)?;
    Ok(new)
}

/// The lower level of each pair.
pub fn meet_rows(alloc: Global, one: &[Known], other: &[Known]) -> Result<Row, NoMemory>
    ensures { IfOk result (λ new. (x : ℕ) (a : Atom) → level_in new x a ≡ meet Level rank_of (level_in one.now x a) (level_in other.now x a)) }
{
    let mut new = Items::new(alloc);
    for known in one {
        push_known(&mut new, known.met(other))?;
    }
    Ok(new)
}
