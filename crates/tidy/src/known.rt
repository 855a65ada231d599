//! What each register is known to hold, before each site and at the end, by a walk from the beginning. At a loop that
//! lies in no other a walk goes before it, which finds what is known after a turn of each loop. So no body is walked more
//! than twice.
ghost use Rattle.std.specs.Prelude.{◌≡◌, ◌<◌, ◌≤◌, ◌+◌, ℕ, pos, Bool, List, [], ◌∷◌, ◌++◌, not, ◌&&◌, ◌||◌, nat_le, nat_lt, Some, length, IfOk, OnOk};
ghost use Rattle.std.specs.List.{list_any};
ghost use Rattle.il_syntax.specs.declared.statement.Atom.{Atom};
ghost use Rattle.il_syntax.specs.declared.statement.Atom.TheVariants.{Const};
ghost use Rattle.il_syntax.specs.declared.program.Function.{Function};
ghost use Rattle.il_syntax.specs.Statements.{head_of};
ghost use Rattle.il_paths.specs.Atoms.{atoms_equal};
ghost use Rattle.il_paths.specs.Tree.{Empty, tree_of, before_rest};
ghost use Rattle.tidy.specs.Known.{known_change, known_at_entry, touches};
ghost use Rattle.tidy.specs.Rows.{is_pair, known_in, known_column, exit_known, table_known, AreKnownRows, IsLastRow};
ghost use Rattle.path_meets.specs.Chain.{must_rank};
ghost use Rattle.backward_sets.specs.Turns.{AreFound, AreTurns};
ghost use Rattle.tidy.specs.Turns.{turns_known, FillsRows};

use crate::atoms::{are_equal, register_given};
use il_syntax::{Atom, Block, Function, Stmt};
use sqlite_items::Items;
use std::alloc::Global;
use values_undef::NoMemory;

/// A register and an atom that it is known to hold.
#[derive(Clone, Copy)]
pub(crate) struct KnownPair {
    pub r: u32,
    pub a: Atom,
}

/// The pairs that are known at one place.
pub(crate) type Row = Items<KnownPair>;

/// Whether the pair is known in a row.
pub(crate) fn is_known(row: &[KnownPair], r: u32, a: Atom) -> bool
    ensures { result ≡ known_in row.now r a }
{
    match row {
        [] => false,
        [pair, more @ ..] => (pair.r == r && are_equal(a, pair.a)) || is_known(more, r, a),
    }
}

fn push_pair(row: &mut Row, pair: KnownPair) -> Result<(), NoMemory>
    ensures { OnOk result ((r : ℕ) (a : Atom) → known_in row.new r a ≡ (known_in row.old r a || is_pair r a pair)) }
{
    row.push(pair)?;
    Ok(())
}

/// Whether a register stands in a pair.
fn stands_in(pair: KnownPair, k: u32) -> bool
    ensures { result ≡ touches pair.r pair.a (Some k) }
{
    k == pair.r || are_equal(pair.a, Atom::Reg(k))
}

/// Whether a register stands in a pair of the row.
fn is_named(row: &[KnownPair], k: u32) -> bool
    ensures { result ≡ list_any (λ pair. touches pair.r pair.a (Some k)) row.now }
{
    match row {
        [] => false,
        [pair, more @ ..] => stands_in(*pair, k) || is_named(more, k),
    }
}

/// The pairs in which a register doesn't stand.
fn others(alloc: Global, row: &[KnownPair], k: u32) -> Result<Row, NoMemory>
    ensures { IfOk result (λ new. (r : ℕ) (a : Atom) → known_in new r a ≡ (not (touches r a (Some k)) && known_in row.now r a)) }
{
    let mut new = Items::new(alloc);
    for pair in row {
        if !stands_in(*pair, k) {
            push_pair(&mut new, *pair)?;
        }
    }
    Ok(new)
}

/// The row without the pairs in which a register stands. Where there is none it is the row that came, so that a
/// walk copies few.
#[tactic(auto, using(crate::proofs::RowLaws::unnamed_stays))]
fn without_register(alloc: Global, row: Row, k: u32) -> Result<Row, NoMemory>
    ensures { IfOk result (λ new. (r : ℕ) (a : Atom) → known_in new r a ≡ (not (touches r a (Some k)) && known_in row r a)) }
{
    if !is_named(row.as_slice(), k) {
        return Ok(row);
    }
    Ok(others(alloc, row.as_slice(), k)?)
}

fn copy_row(alloc: Global, row: &[KnownPair]) -> Result<Row, NoMemory>
    ensures { IfOk result (λ copy. copy ≡ row.now) }
{
    Ok(Items::from_slice(alloc, row)?)
}

/// What is known in both rows.
fn meet_rows(alloc: Global, one: &[KnownPair], other: &[KnownPair]) -> Result<Row, NoMemory>
    ensures { IfOk result (λ new. (r : ℕ) (a : Atom) → known_in new r a ≡ (known_in one.now r a && known_in other.now r a)) }
{
    match one {
        [] => Ok(Items::new(alloc)),
        [pair, more @ ..] => {
            let mut new = meet_rows(alloc, more, other)?;
            if is_known(other, pair.r, pair.a) {
                push_pair(&mut new, *pair)?;
                return Ok(new);
            }
            Ok(new)
        }
    }
}

/// What is known after a statement that has no blocks.
fn row_after(alloc: Global, statement: &Stmt, row: Row) -> Result<Row, NoMemory>
    ensures { IfOk result (λ new. (r : ℕ) (a : Atom) → known_in new r a ≡ known_change r a (head_of statement.now) (known_in row r a)) }
{
    match statement {
        Stmt::Copy { r, a } => {
            let mut new = without_register(alloc, row, *r)?;
            if are_equal(*a, Atom::Reg(*r)) {
                return Ok(new);
            }
            push_pair(&mut new, KnownPair { r: *r, a: *a })?;
            Ok(new)
        }
        Stmt::Compute { r, .. } => Ok(without_register(alloc, row, *r)?),
        Stmt::Load { r, .. } => Ok(without_register(alloc, row, *r)?),
        Stmt::AtomicLoad { r, .. } => Ok(without_register(alloc, row, *r)?),
        Stmt::Update { r, .. } => Ok(without_register(alloc, row, *r)?),
        Stmt::Call { r, .. } => Ok(without_register(alloc, row, *r)?),
        Stmt::Skip => Ok(row),
        Stmt::Store { .. } => Ok(row),
        Stmt::AtomicStore { .. } => Ok(row),
        Stmt::Fence { .. } => Ok(row),
        Stmt::Print { .. } => Ok(row),
        Stmt::If { .. } => Ok(row),
        Stmt::While { .. } => Ok(row),
    }
}

/// What is known after a block. Of each loop, what is known after a turn of it is put to the end of the turns.
#[cycle(exits)]
fn exit_block(alloc: Global, block: &Block, row: Row, turns: &mut Vec<Row>) -> Result<Row, NoMemory>
    ensures after { IfOk result (λ new. (r : ℕ) (a : Atom) → known_in new r a ≡ exit_known r a (tree_of block.now) (known_in row r a)) }
    ensures turns { OnOk result ((r : ℕ) (a : Atom) → known_column r a turns.new.items ≡ known_column r a turns.old.items ++ turns_known r a (tree_of block.now) (known_in row r a)) }
{
    let mut known = row;
    for statement in block.statements.as_slice() {
        known = exit(alloc, statement, known, turns)?;
    }
    Ok(known)
}

/// The same for a statement. One turn of a loop is enough: a pair that a turn loses is lost.
#[cycle(exits)]
fn exit(alloc: Global, statement: &Stmt, row: Row, turns: &mut Vec<Row>) -> Result<Row, NoMemory>
    ensures after { IfOk result (λ new. (r : ℕ) (a : Atom) → known_in new r a ≡ exit_known r a (before_rest statement.now Empty) (known_in row r a)) }
    ensures turns { OnOk result ((r : ℕ) (a : Atom) → known_column r a turns.new.items ≡ known_column r a turns.old.items ++ turns_known r a (before_rest statement.now Empty) (known_in row r a)) }
{
    match statement {
        Stmt::If { yes, no, .. } => {
            let copy = copy_row(alloc, row.as_slice())?;
            let one = exit_block(alloc, yes, copy, turns)?;
            let other = exit_block(alloc, no, row, turns)?;
            Ok(meet_rows(alloc, one.as_slice(), other.as_slice())?)
        }
        Stmt::While { body, .. } => {
            let copy = copy_row(alloc, row.as_slice())?;
            let mut inner = Vec::new(alloc);
            let turn = exit_block(alloc, body, copy, &mut inner)?;
            push_row(alloc, turn.as_slice(), turns)?;
            turns.append(&mut inner)?;
            Ok(meet_rows(alloc, row.as_slice(), turn.as_slice())?)
        }
        _ => Ok(row_after(alloc, statement, row)?),
    }
}

/// Finds the turns of a statement's loops, where none have been found yet.
fn find_turns(
    alloc: Global,
    statement: &Stmt,
    row: &[KnownPair],
    turns: &mut Vec<Row>,
) -> Result<(), NoMemory>
    ensures { OnOk result ((r : ℕ) (a : Atom) (others : List Bool) → AreTurns must_rank (turns_known r a (before_rest statement.now Empty)) (known_in row.now r a) (known_column r a turns.old.items) others → AreFound must_rank (turns_known r a (before_rest statement.now Empty)) (known_in row.now r a) (known_column r a turns.new.items) others) }
{
    if turns.is_empty() {
        let copy = copy_row(alloc, row)?;
        exit(alloc, statement, copy, turns)?;
        turns.reverse();
    }
    Ok(())
}

/// Takes the last of the turns.
fn last_turn(alloc: Global, turns: &mut Vec<Row>) -> Row
    ensures { (r : ℕ) (a : Atom) (turn : Bool) (more : List Bool) → known_column r a turns.old.items ≡ more ++ turn ∷ [] → (known_in result r a ≡ turn) × (known_column r a turns.new.items ≡ more) }
{
    match turns.pop() {
        Some(turn) => turn,
        None => Items::new(alloc),
    }
}

/// Puts a copy of the row to the end.
fn push_row(alloc: Global, row: &[KnownPair], rows: &mut Vec<Row>) -> Result<(), NoMemory>
    ensures { OnOk result ((r : ℕ) (a : Atom) → known_column r a rows.new.items ≡ known_column r a rows.old.items ++ known_in row.now r a ∷ []) }
{
    rows.push(Items::from_slice(alloc, row)?)?;
    Ok(())
}

/// Puts the rows before the sites of a block to the end, and answers what is known after it. In a loop the turns of the
/// block's loops stand at the end of the turns, the first loop's behind the others, and are taken.
#[cycle(fills)]
fn fill_block(
    alloc: Global,
    block: &Block,
    row: Row,
    turns: &mut Vec<Row>,
    rows: &mut Vec<Row>,
) -> Result<Row, NoMemory>
    ensures { IfOk result (λ new. (r : ℕ) (a : Atom) → FillsRows r a (tree_of block.now) (known_in row r a) (known_column r a turns.old.items) (known_column r a rows.old.items) (known_in new r a) (known_column r a turns.new.items) (known_column r a rows.new.items)) }
{
    let mut known = row;
    for statement in block.statements.as_slice() {
        known = fill(alloc, statement, known, turns, rows)?;
    }
    Ok(known)
}

/// The same for a statement. The walk before came to a loop with what no turn of the loops around it had lost yet, so the
/// turn that it found serves here.
#[cycle(fills)]
fn fill(
    alloc: Global,
    statement: &Stmt,
    row: Row,
    turns: &mut Vec<Row>,
    rows: &mut Vec<Row>,
) -> Result<Row, NoMemory>
    ensures { IfOk result (λ new. (r : ℕ) (a : Atom) → FillsRows r a (before_rest statement.now Empty) (known_in row r a) (known_column r a turns.old.items) (known_column r a rows.old.items) (known_in new r a) (known_column r a turns.new.items) (known_column r a rows.new.items)) }
{
    match statement {
        Stmt::If { yes, no, .. } => {
            push_row(alloc, row.as_slice(), rows)?;
            let copy = copy_row(alloc, row.as_slice())?;
            let one = fill_block(alloc, yes, copy, turns, rows)?;
            let other = fill_block(alloc, no, row, turns, rows)?;
            Ok(meet_rows(alloc, one.as_slice(), other.as_slice())?)
        }
        Stmt::While { body, .. } => {
            find_turns(alloc, statement, row.as_slice(), turns)?;
            let turn = last_turn(alloc, turns);
            let low = meet_rows(alloc, row.as_slice(), turn.as_slice())?;
            push_row(alloc, low.as_slice(), rows)?;
            let copy = copy_row(alloc, low.as_slice())?;
            fill_block(alloc, body, copy, turns, rows)?;
            Ok(low)
        }
        _ => {
            push_row(alloc, row.as_slice(), rows)?;
            Ok(row_after(alloc, statement, row)?)
        }
    }
}

/// The registers from one up to another, each with 0.
fn zeros(alloc: Global, from: u32, to: u32) -> Result<Row, NoMemory>
    ensures { IfOk result (λ new. (r : ℕ) (a : Atom) → known_in new r a ≡ (nat_le from r && (nat_lt r to && atoms_equal a (Const (pos 0))))) }
{
    if to <= from {
        return Ok(Items::new(alloc));
    }
    let mut new = zeros(alloc, from, to - 1)?;
    push_pair(
        &mut new,
        KnownPair {
            r: to - 1,
            a: Atom::Const(0),
        },
    )?;
    Ok(new)
}

/// What is known in a function: before each site, and at the end.
#[derive(Drop)]
pub(crate) struct KnownRows {
    pub rows: Items<Row>,
    pub end: Row,
}

/// What each register is known to hold in the function. The only error is want of memory.
pub(crate) fn known_rows(alloc: Global, f: &Function) -> Result<KnownRows, NoMemory>
    requires { length f.now.registers ≤ 64 }
    ensures rows { IfOk result (λ known. AreKnownRows f.now known.rows) }
    ensures end { IfOk result (λ known. IsLastRow f.now known.end) }
{
    let entry = zeros(alloc, f.params, f.registers.as_slice().len() as u32)?;
    let mut turns = Vec::new(alloc);
    let mut rows = Vec::new(alloc);
    let end = fill_block(alloc, &f.body, entry, &mut turns, &mut rows)?;
    Ok(KnownRows {
        rows: Items::from_vec(rows),
        end,
    })
}
