//! The pairs above nothing before each site, all in one walk.
ghost use Rattle.std.specs.Prelude.{◌≡◌, ℕ, [], ◌∷◌, ◌++◌, IfOk, OnOk};
ghost use Rattle.il_syntax.specs.declared.statement.Atom.{Atom};
ghost use Rattle.il_paths.specs.Tree.{Empty, tree_of, before_rest};
ghost use Rattle.path_meets.specs.Walks.{meet_of_turns};
ghost use Rattle.flow_facts.specs.Levels.{rank_of};
ghost use Rattle.flow_facts.specs.Rows.{level_in, column, with_level, IsTable};
ghost use Rattle.flow_facts.specs.declared.level.Level.{Level};
ghost use Rattle.flow_facts.specs.declared.level.Level.TheVariants.{Nothing};
ghost use Rattle.flow_summary.specs.Effects.{through, levels_of};

use crate::effect::effect_of_block;
use flow_facts::{Facts, Kind, Known, Row, Table, meet_rows, push_known, row_after};
use il_syntax::{Block, Function, Stmt};
use sqlite_items::Items;
use std::alloc::Global;
use values_undef::NoMemory;

/// Finds the levels of all pairs in one walk, with one summary for each pair at each loop. Its cost grows
/// with the sites, the pairs above nothing there, and how deep the site lies in loops.
#[derive(Clone, Copy)]
pub struct Summed;

impl Facts for Summed {
    fn before(&self, alloc: Global, f: &Function, kind: Kind) -> Result<Table, NoMemory> {
        Ok(Table::new(rows_before(alloc, kind, &f.body)?))
    }
}

fn may_be_shared<T: Sync>(_facts: &T) {}

/// Threads may share it.
pub fn summed_may_be_shared(facts: &Summed) {
    may_be_shared(facts);
}

/// The entry after any number of turns of a loop's body.
fn turned(kind: Kind, known: &Known, body: &Block) -> Known
    ensures { result ≡ with_level known.now (meet_of_turns Level rank_of 2 (through kind known.now.x known.now.a (tree_of body.now)) known.now.level) }
{
    known.with_level(effect_of_block(kind, known.x, known.a, body).turned(known.level))
}

/// The row after any number of turns of a loop's body.
fn row_of_turns(alloc: Global, kind: Kind, row: &[Known], body: &Block) -> Result<Row, NoMemory>
    ensures { IfOk result (λ new. (x : ℕ) (a : Atom) → level_in new x a ≡ meet_of_turns Level rank_of 2 (through kind x a (tree_of body.now)) (level_in row.now x a)) }
{
    let mut new = Items::new(alloc);
    for known in row {
        push_known(&mut new, turned(kind, known, body))?;
    }
    Ok(new)
}

/// Puts a copy of the row to the end.
fn push_row(alloc: Global, row: &[Known], rows: &mut Items<Row>) -> Result<(), NoMemory>
    ensures { OnOk result ((x : ℕ) (a : Atom) → column x a rows.new ≡ column x a rows.old ++ level_in row.now x a ∷ []) }
{
    rows.push(Items::from_slice(alloc, row)?)?;
    Ok(())
}

/// The rows before the sites of a block, over all paths to them from its beginning.
fn rows_before(alloc: Global, kind: Kind, block: &Block) -> Result<Items<Row>, NoMemory>
    ensures { IfOk result (λ rows. IsTable (tree_of block.now) kind rows) }
{
    let mut rows = Items::new(alloc);
    let none = Items::new(alloc);
    fill_block(alloc, kind, block, none.as_slice(), &mut rows)?;
    Ok(rows)
}

/// Puts the rows before the sites of a block to the end, and answers the row after it.
#[cycle(fills)]
fn fill_block(
    alloc: Global,
    kind: Kind,
    block: &Block,
    before: &[Known],
    rows: &mut Items<Row>,
) -> Result<Row, NoMemory>
    ensures after { IfOk result (λ after. (x : ℕ) (a : Atom) → level_in after x a ≡ through kind x a (tree_of block.now) (level_in before.now x a)) }
    ensures rows { OnOk result ((x : ℕ) (a : Atom) → column x a rows.new ≡ column x a rows.old ++ levels_of kind x a (tree_of block.now) (level_in before.now x a)) }
{
    let mut row = Items::from_slice(alloc, before)?;
    for statement in block.statements.as_slice() {
        row = fill(alloc, kind, statement, row.as_slice(), rows)?;
    }
    Ok(row)
}

/// The same for a statement.
#[cycle(fills)]
fn fill(
    alloc: Global,
    kind: Kind,
    statement: &Stmt,
    before: &[Known],
    rows: &mut Items<Row>,
) -> Result<Row, NoMemory>
    ensures after { IfOk result (λ after. (x : ℕ) (a : Atom) → level_in after x a ≡ through kind x a (before_rest statement.now Empty) (level_in before.now x a)) }
    ensures rows { OnOk result ((x : ℕ) (a : Atom) → column x a rows.new ≡ column x a rows.old ++ levels_of kind x a (before_rest statement.now Empty) (level_in before.now x a)) }
{
    match statement {
        Stmt::If { yes, no, .. } => {
            push_row(alloc, before, rows)?;
            let one = fill_block(alloc, kind, yes, before, rows)?;
            let other = fill_block(alloc, kind, no, before, rows)?;
            Ok(meet_rows(alloc, one.as_slice(), other.as_slice())?)
        }
        Stmt::While { body, .. } => {
            let low = row_of_turns(alloc, kind, before, body)?;
            push_row(alloc, low.as_slice(), rows)?;
            fill_block(alloc, kind, body, low.as_slice(), rows)?;
            Ok(low)
        }
        _ => {
            push_row(alloc, before, rows)?;
            Ok(row_after(alloc, kind, before, statement)?)
        }
    }
}
