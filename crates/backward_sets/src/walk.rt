//! The sets after all sites, by a walk from the end. At a loop that lies in no other a walk goes before it, which finds
//! what a turn of each loop makes of what is known after it. So no body is walked more than twice.
ghost use Rattle.std.specs.Prelude.{◌≡◌, ℕ, List, [], ◌∷◌, ◌++◌, Bool, reverse, IfOk, OnOk};
ghost use Rattle.il_syntax.specs.Statements.{Head, head_of};
ghost use Rattle.il_paths.specs.Tree.{Empty, tree_of, before_rest};
ghost use Rattle.path_meets.specs.Walks.{meet};
ghost use Rattle.location_sets.specs.Sets.{has, column};
ghost use Rattle.backward_sets.specs.Walk.{before_tree, after_sites};
ghost use Rattle.backward_sets.specs.Turns.{turns_of, AreFound, AreTurns, Fills};
ghost use Rattle.backward_sets.specs.Meets.{KeepsOrder, AreMeetsAfter};

use il_syntax::{Block, Stmt};
use location_sets::Set;
use sqlite_items::Items;
use std::alloc::Global;
use values_undef::NoMemory;

/// What a statement makes of the set, its blocks left aside.
pub trait Backward {
    /// The order of yes and no: the lower one is kept where paths meet.
    ghost rank: { Self → Bool → ℕ };

    /// Whether a number is in the set before the statement, from whether it is in it after it.
    ghost change: { Self → ℕ → Head → Bool → Bool };

    /// The set before the statement.
    fn set_before(&self, alloc: Global, statement: &Stmt, set: &[u32]) -> Result<Set, NoMemory>
        ensures { IfOk result (λ new. (x : ℕ) → has x new ≡ change self.now x (head_of statement.now) (has x set.now)) };

    /// The set where two paths part.
    fn meet(&self, alloc: Global, one: &[u32], other: &[u32]) -> Result<Set, NoMemory>
        ensures { IfOk result (λ new. (x : ℕ) → has x new ≡ meet Bool (rank self.now) (has x one.now) (has x other.now)) };
}

/// The set before a block. Of each loop, what a turn of it makes of the set after it is put to the end of the turns.
#[cycle(enters)]
fn enter_block<B: Backward>(
    alloc: Global,
    walk: &B,
    block: &Block,
    after: &[u32],
    turns: &mut Vec<Set>,
) -> Result<Set, NoMemory>
    ensures before { IfOk result (λ new. (x : ℕ) → has x new ≡ before_tree (B.rank walk.now) (B.change walk.now) x (tree_of block.now) (has x after.now)) }
    ensures turns { OnOk result ((x : ℕ) → column x turns.new.items ≡ column x turns.old.items ++ turns_of (B.rank walk.now) (B.change walk.now) x (tree_of block.now) (has x after.now)) }
{
    let mut set = Items::from_slice(alloc, after)?;
    let statements = block.statements.as_slice();
    let mut left = statements.len();
    while left > 0 {
        left -= 1;
        set = enter(alloc, walk, &statements[left], set.as_slice(), turns)?;
    }
    Ok(set)
}

/// The same for a statement. One turn of a loop is enough: a loop is walked once.
#[cycle(enters)]
fn enter<B: Backward>(
    alloc: Global,
    walk: &B,
    statement: &Stmt,
    after: &[u32],
    turns: &mut Vec<Set>,
) -> Result<Set, NoMemory>
    ensures before { IfOk result (λ new. (x : ℕ) → has x new ≡ before_tree (B.rank walk.now) (B.change walk.now) x (before_rest statement.now Empty) (has x after.now)) }
    ensures turns { OnOk result ((x : ℕ) → column x turns.new.items ≡ column x turns.old.items ++ turns_of (B.rank walk.now) (B.change walk.now) x (before_rest statement.now Empty) (has x after.now)) }
{
    match statement {
        Stmt::If { yes, no, .. } => {
            let other = enter_block(alloc, walk, no, after, turns)?;
            let one = enter_block(alloc, walk, yes, after, turns)?;
            let low = walk.meet(alloc, one.as_slice(), other.as_slice())?;
            Ok(walk.set_before(alloc, statement, low.as_slice())?)
        }
        Stmt::While { body, .. } => {
            let once = walk.set_before(alloc, statement, after)?;
            let mut inner = Vec::new(alloc);
            let turn = enter_block(alloc, walk, body, once.as_slice(), &mut inner)?;
            let again = walk.set_before(alloc, statement, turn.as_slice())?;
            push_set(alloc, again.as_slice(), turns)?;
            turns.append(&mut inner)?;
            Ok(walk.meet(alloc, once.as_slice(), again.as_slice())?)
        }
        _ => Ok(walk.set_before(alloc, statement, after)?),
    }
}

/// Finds the turns of a statement's loops, where none have been found yet.
fn find_turns<B: Backward>(
    alloc: Global,
    walk: &B,
    statement: &Stmt,
    after: &[u32],
    turns: &mut Vec<Set>,
) -> Result<(), NoMemory>
    ensures { OnOk result ((x : ℕ) (others : List Bool) → AreTurns (B.rank walk.now) (turns_of (B.rank walk.now) (B.change walk.now) x (before_rest statement.now Empty)) (has x after.now) (column x turns.old.items) others → AreFound (B.rank walk.now) (turns_of (B.rank walk.now) (B.change walk.now) x (before_rest statement.now Empty)) (has x after.now) (column x turns.new.items) others) }
{
    if turns.is_empty() {
        enter(alloc, walk, statement, after, turns)?;
        turns.reverse();
    }
    Ok(())
}

/// Takes the last of the turns.
fn last_turn(alloc: Global, turns: &mut Vec<Set>) -> Set
    ensures { (x : ℕ) (turn : Bool) (more : List Bool) → column x turns.old.items ≡ more ++ turn ∷ [] → (has x result ≡ turn) × (column x turns.new.items ≡ more) }
{
    match turns.pop() {
        Some(turn) => turn,
        None => Items::new(alloc),
    }
}

/// Puts the sets after the sites of a block to the end, the last site's first, and answers the set before it. In a loop
/// the turns of the block's loops stand at the end of the turns, the last loop's behind the others, and are taken.
#[cycle(fills)]
fn fill_block<B: Backward>(
    alloc: Global,
    walk: &B,
    block: &Block,
    after: &[u32],
    turns: &mut Vec<Set>,
    sets: &mut Vec<Set>,
) -> Result<Set, NoMemory>
    requires { KeepsOrder (B.rank walk.now) (B.change walk.now) }
    ensures { IfOk result (λ new. (x : ℕ) → Fills (B.rank walk.now) (B.change walk.now) x (tree_of block.now) (has x after.now) (column x turns.old.items) (column x sets.old.items) (has x new) (column x turns.new.items) (column x sets.new.items)) }
{
    let mut set = Items::from_slice(alloc, after)?;
    let statements = block.statements.as_slice();
    let mut left = statements.len();
    while left > 0 {
        left -= 1;
        set = fill(alloc, walk, &statements[left], set.as_slice(), turns, sets)?;
    }
    Ok(set)
}

/// The same for a statement. The walk before came to a loop with what no turn of the loops around it had lowered yet, so
/// the turn that it found serves here.
#[cycle(fills)]
fn fill<B: Backward>(
    alloc: Global,
    walk: &B,
    statement: &Stmt,
    after: &[u32],
    turns: &mut Vec<Set>,
    sets: &mut Vec<Set>,
) -> Result<Set, NoMemory>
    requires { KeepsOrder (B.rank walk.now) (B.change walk.now) }
    ensures { IfOk result (λ new. (x : ℕ) → Fills (B.rank walk.now) (B.change walk.now) x (before_rest statement.now Empty) (has x after.now) (column x turns.old.items) (column x sets.old.items) (has x new) (column x turns.new.items) (column x sets.new.items)) }
{
    match statement {
        Stmt::If { yes, no, .. } => {
            let other = fill_block(alloc, walk, no, after, turns, sets)?;
            let one = fill_block(alloc, walk, yes, after, turns, sets)?;
            let low = walk.meet(alloc, one.as_slice(), other.as_slice())?;
            push_set(alloc, low.as_slice(), sets)?;
            Ok(walk.set_before(alloc, statement, low.as_slice())?)
        }
        Stmt::While { body, .. } => {
            find_turns(alloc, walk, statement, after, turns)?;
            let once = walk.set_before(alloc, statement, after)?;
            let turn = last_turn(alloc, turns);
            let low = walk.meet(alloc, once.as_slice(), turn.as_slice())?;
            let again = fill_block(alloc, walk, body, low.as_slice(), turns, sets)?;
            let next = walk.meet(alloc, after, again.as_slice())?;
            push_set(alloc, next.as_slice(), sets)?;
            Ok(low)
        }
        _ => {
            push_set(alloc, after, sets)?;
            Ok(walk.set_before(alloc, statement, after)?)
        }
    }
}

/// Puts a copy of the set to the end.
fn push_set(alloc: Global, set: &[u32], sets: &mut Vec<Set>) -> Result<(), NoMemory>
    ensures { OnOk result ((x : ℕ) → column x sets.new.items ≡ column x sets.old.items ++ has x set.now ∷ []) }
{
    sets.push(Items::from_slice(alloc, set)?)?;
    Ok(())
}

/// The set after each site of the block, from the set at the end: whether a number is in it is the least of what the
/// paths from there say.
pub fn sets_after<B: Backward>(
    alloc: Global,
    walk: &B,
    block: &Block,
    end: &[u32],
) -> Result<Items<Set>, NoMemory>
    requires { KeepsOrder (B.rank walk.now) (B.change walk.now) }
    ensures { IfOk result (λ sets. AreMeetsAfter (B.rank walk.now) (B.change walk.now) (tree_of block.now) end.now sets) }
{
    let mut turns = Vec::new(alloc);
    let mut sets = Vec::new(alloc);
    fill_block(alloc, walk, block, end, &mut turns, &mut sets)?;
    sets.reverse();
    Ok(Items::from_vec(sets))
}
