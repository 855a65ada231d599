//! The levels of one pair after another, each by rounds over the function until no level falls.
//!
//! This is the plain meaning of the levels in code: one kept level a site, brought down to what comes there.
//! The ranks of the levels together fall with each round but the last. It goes over the function once for
//! each pair and each round, so it is for reading and for comparison; `flow_summary` is for use.
ghost use Rattle.std.specs.Prelude.{◌≡◌, ℕ, ◌+◌, ◌<◌, ◌≤◌, List, length, IfOk, sum_by, slice_set, replicate, slice_index_or};
ghost use Rattle.il_syntax.specs.declared.statement.Atom.{Atom};
ghost use Rattle.il_paths.specs.Tree.{Empty, tree_of, before_rest, sites_of};
ghost use Rattle.il_paths.specs.Code.{placed};
ghost use Rattle.flow_facts.specs.Levels.{rank_of, level_step};
ghost use Rattle.flow_facts.specs.Rows.{level_in, level_at};
ghost use Rattle.flow_facts.specs.Rounds.{brought, round};
ghost use Rattle.flow_facts.specs.Columns.{AreLevels, entry, level_by_columns};
ghost use Rattle.flow_facts.specs.declared.level.Level.{Level};
ghost use Rattle.flow_facts.specs.declared.level.Level.TheVariants.{Nothing};

use crate::given::{Pair, list_given};
use crate::known::{Known, Row, push_known};
use crate::level::{Kind, Level};
use crate::table::{Facts, Table};
use crate::transfer::Transfer;
use il_syntax::{Atom, Block, Function, Stmt, sites};
use sqlite_items::Items;
use std::alloc::Global;
use values_undef::NoMemory;

/// Finds the levels of one pair after another, by rounds over the function until no level falls.
#[derive(Clone, Copy)]
pub struct Walked;

impl Facts for Walked {
    fn before(&self, alloc: Global, f: &Function, kind: Kind) -> Result<Table, NoMemory> {
        let count = sites(f);
        let mut given = Items::new(alloc);
        list_given(&f.body, &mut given)?;
        let mut columns = Items::new(alloc);
        for pair in given.as_slice() {
            columns.push(column_of(alloc, kind, pair, &f.body, count)?)?;
        }
        Ok(Table::new(rows_of(alloc, columns.as_slice(), count)?))
    }
}

fn may_be_shared<T: Sync>(_facts: &T) {}

/// Threads may share it.
pub fn walked_may_be_shared(facts: &Walked) {
    may_be_shared(facts);
}

/// A pair and its level before each site.
#[derive(Drop)]
pub struct Column {
    pub pair: Pair,
    pub levels: Items<Level>,
}

impl Column {
    fn level(&self, site: u32) -> Level
        ensures { result ≡ slice_index_or self.now.levels site Nothing }
    {
        match self.levels.get(site as usize) {
            Some(level) => *level,
            None => Level::Nothing,
        }
    }

    /// The pair and its level before one site.
    fn known(&self, site: u32) -> Known
        ensures { result ≡ entry self.now site }
    {
        Known {
            x: self.pair.x,
            a: self.pair.a,
            level: self.level(site),
        }
    }
}

/// The rows before the sites, from the columns of the pairs.
fn rows_of(alloc: Global, columns: &[Column], count: u32) -> Result<Items<Row>, NoMemory>
    ensures { IfOk result (λ rows. (site x : ℕ) (a : Atom) → site < count → level_at rows site x a ≡ level_by_columns columns.now site x a) }
{
    let mut rows = Items::new(alloc);
    for site in 0..count {
        rows.push(row_of(alloc, columns, site)?)?;
    }
    Ok(rows)
}

/// The row before one site.
fn row_of(alloc: Global, columns: &[Column], site: u32) -> Result<Row, NoMemory>
    ensures { IfOk result (λ row. (x : ℕ) (a : Atom) → level_in row x a ≡ level_by_columns columns.now site x a) }
{
    let mut row = Items::new(alloc);
    for column in columns {
        push_known(&mut row, column.known(site))?;
    }
    Ok(row)
}

/// The levels of a pair before each site of a block.
fn column_of(
    alloc: Global,
    kind: Kind,
    pair: &Pair,
    block: &Block,
    count: u32,
) -> Result<Column, NoMemory>
    requires all { count ≡ sites_of (tree_of block.now) }
    requires few { count ≤ 4096 }
    ensures pair { IfOk result (λ column. column.pair ≡ pair.now) }
    ensures levels { IfOk result (λ column. AreLevels (tree_of block.now) kind pair.now column.levels) }
{
    let mut levels = vec![in alloc; Level::Fresh; count as usize]?;
    settle(kind, pair, block, &mut levels);
    Ok(Column {
        pair: *pair,
        levels: Items::from_vec(levels),
    })
}

/// Goes over the block until no level falls.
fn settle(kind: Kind, pair: &Pair, block: &Block, levels: &mut [Level])
    requires sites { sites_of (tree_of block.now) ≤ 4096 }
    requires fresh { levels.old ≡ replicate (sites_of (tree_of block.now)) Level.Fresh }
    ensures { AreLevels (tree_of block.now) kind pair.now levels.new }
{
    let mut total = total_rank(levels);
    loop {
        round_block(kind, pair, block, 0, Level::Nothing, levels);
        let left = total_rank(levels);
        if left == total {
            return;
        }
        total = left;
    }
}

/// The ranks of the levels together.
fn total_rank(levels: &[Level]) -> u32
    requires { length levels.now ≤ 4096 }
    ensures { result ≡ sum_by rank_of levels.now }
{
    let mut total = 0;
    for level in levels {
        total += level.rank();
    }
    total
}

/// Brings the level at a site down to what comes there.
fn bring_down(levels: &mut [Level], site: u32, level: Level) -> Level
    requires { site < length levels.old }
    ensures low { result ≡ brought Level rank_of levels.old site level }
    ensures kept { levels.new ≡ slice_set levels.old site result }
{
    let low = levels[site as usize].lower(level);
    levels[site as usize] = low;
    low
}

/// What is known after statements, and the site after them.
#[derive(Clone, Copy)]
struct After {
    level: Level,
    site: u32,
}

/// One round over a block that stands at a site.
#[cycle(rounds)]
fn round_block(
    kind: Kind,
    pair: &Pair,
    block: &Block,
    site: u32,
    before: Level,
    levels: &mut [Level],
) -> After
    requires inside { site + sites_of (tree_of block.now) ≤ length levels.old }
    requires long { length levels.old ≤ 4096 }
    ensures kept { levels.new ≡ (round Level rank_of (level_step kind pair.now.x pair.now.a) (placed site (tree_of block.now)) levels.old before).0 }
    ensures after { result.level ≡ (round Level rank_of (level_step kind pair.now.x pair.now.a) (placed site (tree_of block.now)) levels.old before).1 }
    ensures site { result.site ≡ site + sites_of (tree_of block.now) }
{
    let mut after = After {
        level: before,
        site,
    };
    for statement in block.statements.as_slice() {
        after = round_statement(kind, pair, statement, after.site, after.level, levels);
    }
    after
}

/// One round over a statement that stands at a site.
#[cycle(rounds)]
fn round_statement(
    kind: Kind,
    pair: &Pair,
    statement: &Stmt,
    site: u32,
    before: Level,
    levels: &mut [Level],
) -> After
    requires inside { site + sites_of (before_rest statement.now Empty) ≤ length levels.old }
    requires long { length levels.old ≤ 4096 }
    ensures kept { levels.new ≡ (round Level rank_of (level_step kind pair.now.x pair.now.a) (placed site (before_rest statement.now Empty)) levels.old before).0 }
    ensures after { result.level ≡ (round Level rank_of (level_step kind pair.now.x pair.now.a) (placed site (before_rest statement.now Empty)) levels.old before).1 }
    ensures site { result.site ≡ site + sites_of (before_rest statement.now Empty) }
{
    let low = bring_down(levels, site, before);
    match statement {
        Stmt::If { yes, no, .. } => {
            let one = round_block(kind, pair, yes, site + 1, low, levels);
            let other = round_block(kind, pair, no, one.site, low, levels);
            After {
                level: one.level.lower(other.level),
                site: other.site,
            }
        }
        Stmt::While { body, .. } => {
            let turn = round_block(kind, pair, body, site + 1, low, levels);
            After {
                level: bring_down(levels, site, turn.level),
                site: turn.site,
            }
        }
        _ => After {
            level: Transfer::of(kind, pair.x, pair.a, statement).after(low),
            site: site + 1,
        },
    }
}
