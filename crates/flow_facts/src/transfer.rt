//! What a statement does to the level of a pair, and several statements together.
ghost use Rattle.std.specs.Prelude.{◌≡◌};
ghost use Rattle.il_syntax.specs.Statements.{head_of};
ghost use Rattle.il_syntax.specs.declared.statement.Stmt.TheOpen.{Store, Load};
ghost use Rattle.path_meets.specs.Walks.{meet, meet_of_turns};
ghost use Rattle.flow_facts.specs.Levels.{rank_of, after_transfer, synchronised, losing, transfer_of};
ghost use Rattle.flow_facts.specs.Transfers.{followed_by, lower_transfer, met_by_level, repeated};
ghost use Rattle.flow_facts.specs.declared.level.Level.{Level};

use crate::level::{Kind, Level};
use il_paths::{acquires, releases};
use il_syntax::{Atom, Stmt};

/// What a statement, a block or a loop does to the level of a pair.
#[derive(Clone, Copy)]
pub enum Transfer {
    Keeps,
    Becomes(Level),
    Acquires,
    Releases,
    AcquiresAndReleases,
}

impl Transfer {
    /// The level after it.
    pub fn after(self, level: Level) -> Level
        ensures { result ≡ after_transfer self level }
    {
        match (self, level) {
            (Transfer::Becomes(new), _) => new,
            (Transfer::Acquires | Transfer::AcquiresAndReleases, Level::Held) => Level::Nothing,
            (Transfer::Releases | Transfer::AcquiresAndReleases, Level::Fresh) => Level::Held,
            (_, level) => level,
        }
    }

    fn synchronised(acquires: bool, releases: bool) -> Transfer
        ensures { result ≡ synchronised acquires releases }
    {
        match (acquires, releases) {
            (false, false) => Transfer::Keeps,
            (true, false) => Transfer::Acquires,
            (false, true) => Transfer::Releases,
            (true, true) => Transfer::AcquiresAndReleases,
        }
    }

    fn losing(r: u32, a: Atom, other: Transfer) -> Transfer
        ensures { result ≡ losing r a other }
    {
        if a == Atom::Reg(r) {
            Transfer::Becomes(Level::Nothing)
        } else {
            other
        }
    }

    fn of_store(kind: Kind, x: u32, a: Atom, y: u32, b: Atom) -> Transfer
        ensures { result ≡ transfer_of kind x a (Store y b) }
    {
        if y != x {
            Transfer::Keeps
        } else if a == b && kind.stores_give() {
            Transfer::Becomes(Level::Fresh)
        } else {
            Transfer::Becomes(Level::Nothing)
        }
    }

    fn of_load(kind: Kind, x: u32, a: Atom, r: u32, y: u32) -> Transfer
        ensures { result ≡ transfer_of kind x a (Load r y) }
    {
        if a != Atom::Reg(r) {
            Transfer::Keeps
        } else if y == x && kind.loads_give() {
            Transfer::Becomes(Level::Held)
        } else {
            Transfer::Becomes(Level::Nothing)
        }
    }

    /// What a statement does to the pair (x, a), its blocks left aside.
    pub fn of(kind: Kind, x: u32, a: Atom, statement: &Stmt) -> Transfer
        ensures { result ≡ transfer_of kind x a (head_of statement.now) }
    {
        match statement {
            Stmt::Skip | Stmt::Print { .. } | Stmt::If { .. } | Stmt::While { .. } =>
                Transfer::Keeps,
            Stmt::Call { .. } => Transfer::Becomes(Level::Nothing),
            Stmt::Store { x: y, a: b } => Transfer::of_store(kind, x, a, *y, *b),
            Stmt::Load { r, x: y } => Transfer::of_load(kind, x, a, *r, *y),
            Stmt::Copy { r, .. } | Stmt::Compute { r, .. } => Transfer::losing(
                *r,
                a,
                Transfer::Keeps,
            ),
            Stmt::AtomicLoad { r, .. } | Stmt::Update { r, .. } => {
                Transfer::losing(
                    *r,
                    a,
                    Transfer::synchronised(acquires(statement), releases(statement)),
                )
            }
            Stmt::AtomicStore { .. } | Stmt::Fence { .. } => Transfer::synchronised(
                acquires(statement),
                releases(statement),
            ),
        }
    }
}
