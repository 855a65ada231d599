//! The levels of all pairs before each site of a function, and what gives them.
ghost use Rattle.std.specs.Prelude.{◌≡◌, ◌≤◌, ◌⊎◌, ◌↔◌, IfSome, IsTrue, IfOk, slice_index_or, []};
ghost use Rattle.il_syntax.specs.Statements.{site_count};
ghost use Rattle.il_paths.specs.Tree.{tree_of};
ghost use Rattle.flow_facts.specs.Rows.{level_at, IsTable, HasAtMost, IsKnownOf, IsLeastKnown, IsLeastIn};

use crate::known::{Known, Row, level_in};
use crate::level::{Kind, Level};
use il_paths::lower_atom;
use il_syntax::{Atom, Function};
use sqlite_items::Items;
use std::alloc::Global;
use std::marker::Model;
use values_undef::NoMemory;

/// The pairs above nothing before each site.
#[derive(Drop)]
pub struct Table {
    rows: Items<Row>,
}

impl Model for Table {
    ghost use Rattle.std.specs.Prelude.{List};
    ghost use Rattle.flow_facts.specs.declared.known.Known.{Known};

    ghost Value = { List (List Known) };

    ghost view = { λ table. table.rows };
}

impl Table {
    /// The table of these rows, one a site in text order.
    pub fn new(rows: Items<Row>) -> Table
        ensures { result ≡ rows }
    {
        Table { rows }
    }

    /// The pairs above nothing before a site, each perhaps more than once.
    fn row(&self, site: u32) -> &[Known]
        ensures { result.now ≡ slice_index_or self.now site [] }
    {
        match self.rows.get(site as usize) {
            Some(row) => row.as_slice(),
            None => &[],
        }
    }

    /// The level of a pair before a site.
    pub fn level(&self, site: u32, x: u32, a: Atom) -> Level
        ensures { result ≡ level_at self.now site x a }
    {
        level_in(self.row(site), x, a)
    }

    /// The least atom whose pair with the location is above nothing before a site, constants by value
    /// before registers by number. None where there is none.
    pub fn best(&self, site: u32, x: u32) -> Option<Atom>
        ensures { IsLeastKnown self.now site x result }
    {
        best_in(self.row(site), x)
    }
}

/// The least atom of the row's entries of the location.
fn best_in(row: &[Known], x: u32) -> Option<Atom>
    ensures { IsLeastIn row.now x result }
{
    let mut best = None;
    for known in row {
        best = known.better(x, best);
    }
    best
}

impl Known {
    /// The lower of this entry's atom, where it is one of the location, and another.
    fn better(&self, x: u32, best: Option<Atom>) -> Option<Atom>
        ensures one { IfSome result (λ b. (best ≡ Some b) ⊎ ((b ≡ self.now.a) × IsKnownOf self.now x)) }
        ensures first { IfSome best (λ b. HasAtMost result b) }
        ensures second { IsKnownOf self.now x → HasAtMost result self.now.a }
    {
        if self.x == x && self.level != Level::Nothing {
            Some(lower_atom(self.a, best))
        } else {
            best
        }
    }
}

/// What finds the levels of a function.
pub trait Facts {
    /// The levels of all pairs before each site, of those that no statement gives too: each is the
    /// least over all paths to the site, in facts of this kind.
    fn before(&self, alloc: Global, f: &Function, kind: Kind) -> Result<Table, NoMemory>
        requires { site_count f.now.body.statements ≤ 4096 }
        ensures { IfOk result (λ table. IsTable (tree_of f.now.body) kind table) };
}
