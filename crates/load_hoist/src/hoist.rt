//! One walk that copies a function and puts loads before its loops.
ghost use Rattle.std.specs.Prelude.{◌≡◌, ◌≤◌, ◌<◌, ◌+◌, ◌++◌, ◌^◌, [], map, length, ◌∷◌, IfOk, OnOk, IsTrue};
ghost use Rattle.il_syntax.specs.Statements.{site_count};
ghost use Rattle.il_paths.specs.Tree.{Tree, tree_of, before_rest};
ghost use Rattle.rewriting.specs.Puts.{puts};
ghost use Rattle.load_hoist.specs.declared.growth.Extra.{Extra};
ghost use Rattle.load_hoist.specs.Introduced as spec;
ghost use Rattle.load_hoist.specs.Introduced.{extras, introduced, load_of, IsIntroduced};
ghost use Rattle.load_hoist.specs.Taken.{IsTaken};

use crate::growth::{Growing, Growth};
use crate::names::next_name;
use crate::wanted::is_wanted;
use il_syntax::{Block, Function, Name, Names, Stmt, copy_name, copy_names, copy_statement, sites};
use location_sets::has;
use sqlite_items::Items;
use std::alloc::Global;
use values_undef::NoMemory;

/// The most registers, and the most statements, that a function has.
const MOST_REGISTERS: usize = 64;

const MOST_STATEMENTS: u32 = 4096;

/// Whether the function so far may have one more register and one more statement.
fn may_grow(growth: &Growth) -> bool
    ensures { result ≡ spec.may_grow growth.now }
{
    growth.registers.len() < MOST_REGISTERS && growth.statements < MOST_STATEMENTS
}

/// Whether a load of the location is put before a loop with this body.
fn gets_load(body: &Block, inside: &[u32], x: u32, growth: &Growth) -> bool
    ensures { result ≡ spec.gets_load (tree_of body.now) inside.now x growth.now }
{
    is_wanted(body, x) && !has(inside, x) && may_grow(growth)
}

/// Puts one load of the location into a new register.
fn put_load(
    alloc: Global,
    names: &[Name],
    x: u32,
    growing: &mut Growing,
    kept: &mut Items<Stmt>,
) -> Result<(), NoMemory>
    requires may { IsTrue (spec.may_grow growing.old.growth) }
    requires few { length names.now < 2 ^ 32 }
    requires taken { IsTaken names.now growing.old }
    ensures growth { OnOk result (growing.new.growth ≡ spec.grown names.now growing.old.growth) }
    ensures taken { OnOk result (IsTaken names.now growing.new) }
    ensures kept { OnOk result (kept.new ≡ kept.old ++ load_of (record { r = length growing.old.growth.registers; x = x }) ∷ []) }
{
    let r = growing.growth.registers.len() as u32;
    let new = next_name(alloc, names, &growing.growth, growing.from)?;
    growing.growth.registers.push(new.name)?;
    growing.growth.statements += 1;
    growing.from = new.number + 1;
    kept.push(Stmt::Load { r, x })?;
    Ok(())
}

/// Puts the loads before a loop with this body, and answers the locations of which a load stands before a loop
/// around that body.
fn put_loads(
    alloc: Global,
    na: u32,
    names: &[Name],
    body: &Block,
    inside: &[u32],
    growing: &mut Growing,
    kept: &mut Items<Stmt>,
) -> Result<Items<u32>, NoMemory>
    requires few { length names.now < 2 ^ 32 }
    requires taken { IsTaken names.now growing.old }
    ensures within { IfOk result (λ within. within ≡ map (λ (e : Extra). e.x) (extras names.now (tree_of body.now) inside.now na 0 growing.old.growth).0 ++ inside.now) }
    ensures growth { OnOk result (growing.new.growth ≡ (extras names.now (tree_of body.now) inside.now na 0 growing.old.growth).1) }
    ensures taken { OnOk result (IsTaken names.now growing.new) }
    ensures kept { OnOk result (kept.new ≡ kept.old ++ map load_of (extras names.now (tree_of body.now) inside.now na 0 growing.old.growth).0) }
{
    let mut within = Items::new(alloc);
    for x in 0..na {
        if gets_load(body, inside, x, &growing.growth) {
            put_load(alloc, names, x, growing, kept)?;
            within.push(x)?;
        }
    }
    for outer in inside {
        within.push(*outer)?;
    }
    Ok(within)
}

/// The block with its loads, after which the function is the one that has grown.
#[cycle(hoists)]
fn hoist_block(
    alloc: Global,
    na: u32,
    names: &[Name],
    block: &Block,
    inside: &[u32],
    growing: &mut Growing,
) -> Result<Block, NoMemory>
    requires few { length names.now < 2 ^ 32 }
    requires taken { IsTaken names.now growing.old }
    ensures block { IfOk result (λ new. tree_of new ≡ (introduced na names.now (tree_of block.now) inside.now growing.old.growth).0) }
    ensures growth { OnOk result (growing.new.growth ≡ (introduced na names.now (tree_of block.now) inside.now growing.old.growth).1) }
    ensures taken { OnOk result (IsTaken names.now growing.new) }
{
    let mut kept = Items::new(alloc);
    for statement in block.statements.as_slice() {
        hoist_statement(alloc, na, names, statement, inside, growing, &mut kept)?;
    }
    Ok(Block { statements: kept })
}

/// Puts the statement with its loads, whatever comes after it.
#[cycle(hoists)]
fn hoist_statement(
    alloc: Global,
    na: u32,
    names: &[Name],
    statement: &Stmt,
    inside: &[u32],
    growing: &mut Growing,
    kept: &mut Items<Stmt>,
) -> Result<(), NoMemory>
    requires few { length names.now < 2 ^ 32 }
    requires taken { IsTaken names.now growing.old }
    ensures kept { OnOk result ((rest : Tree) → puts kept.old (introduced na names.now (before_rest statement.now rest) inside.now growing.old.growth).0 ≡ puts kept.new (introduced na names.now rest inside.now growing.new.growth).0) }
    ensures growth { OnOk result ((rest : Tree) → (introduced na names.now (before_rest statement.now rest) inside.now growing.old.growth).1 ≡ (introduced na names.now rest inside.now growing.new.growth).1) }
    ensures taken { OnOk result (IsTaken names.now growing.new) }
{
    match statement {
        Stmt::If { a, yes, no } => {
            let one = hoist_block(alloc, na, names, yes, inside, growing)?;
            let other = hoist_block(alloc, na, names, no, inside, growing)?;
            kept.push(Stmt::If {
                a: *a,
                yes: one,
                no: other,
            })?;
            Ok(())
        }
        Stmt::While { a, body } => {
            let within = put_loads(alloc, na, names, body, inside, growing, kept)?;
            let turn = hoist_block(alloc, na, names, body, within.as_slice(), growing)?;
            kept.push(Stmt::While { a: *a, body: turn })?;
            Ok(())
        }
        _ => {
            let new = copy_statement(alloc, statement)?;
            kept.push(new)?;
            Ok(())
        }
    }
}

/// The function with a load of each location put before each loop that loads it and neither stores to it,
/// acquires nor calls, and that stands in no loop before which a load of it was put. A load goes into a new
/// register, while there are fewer than 64 of them and fewer than 4096 statements. `na` is the number of
/// non-atomic locations of the function's program, and `names` are the names of its locations and functions: a
/// new register has none of them. The only error is want of memory.
pub fn introduce_loads(
    alloc: Global,
    f: &Function,
    na: u32,
    names: &Names,
) -> Result<Function, NoMemory>
    requires statements { site_count f.now.body.statements ≤ 4096 }
    requires names { length names.now < 2 ^ 32 }
    ensures { IfOk result (λ g. IsIntroduced na names.now f.now g) }
{
    let registers = copy_names(alloc, f.registers.as_slice())?;
    let statements = sites(f);
    let growth = Growth {
        registers,
        statements,
    };
    let mut growing = Growing { growth, from: 0 };
    let taken = names.as_slice();
    let body = hoist_block(alloc, na, taken, &f.body, &[], &mut growing)?;
    let name = copy_name(alloc, &f.name)?;
    Ok(Function {
        name,
        params: f.params,
        registers: growing.growth.registers,
        body,
        result: f.result,
    })
}
