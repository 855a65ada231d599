//! Statements read what is known in the place of registers.
ghost use Rattle.std.specs.Prelude.{◌≡◌, ◌<◌, ◌≤◌, ◌+◌, ◌^◌, ℕ, map, length, IfOk};
ghost use Rattle.il_syntax.specs.Statements.{site_count};
ghost use Rattle.il_paths.specs.Tree.{Leaf, leaf_statement, Tree, Empty, tree_of, before_rest, sites_of};
ghost use Rattle.tidy.specs.Atoms.{atoms_in, atoms_of_update, update_with, with_atoms};
ghost use Rattle.tidy.specs.Propagated.{propagated_atom, propagated_tree, IsPropagated};
ghost use Rattle.tidy.specs.Least.{least_in, least_at};

use crate::known::{KnownPair, Row, known_rows};
use il_paths::lower_atom;
use il_syntax::{Atom, Block, Function, Rmw, Stmt, copy_name, copy_names, copy_statement};
use sqlite_items::Items;
use std::alloc::Global;
use values_undef::NoMemory;

/// The least atom that a row knows for a register.
pub(crate) fn least_in(row: &[KnownPair], r: u32) -> Option<Atom>
    ensures { result ≡ least_in row.now r }
{
    match row {
        [] => None,
        [pair, more @ ..] => {
            let later = least_in(more, r);
            if pair.r == r {
                return Some(lower_atom(pair.a, later));
            }
            later
        }
    }
}

/// What stands in the place of an atom.
fn replace(row: &[KnownPair], a: Atom) -> Atom
    ensures { result ≡ propagated_atom (least_in row.now) a }
{
    match a {
        Atom::Const(n) => Atom::Const(n),
        Atom::Reg(r) => match least_in(row, r) {
            Some(b) => b,
            None => Atom::Reg(r),
        },
    }
}

/// The same, of the row before a site.
fn replace_at(rows: &[Row], site: u32, a: Atom) -> Atom
    ensures { result ≡ propagated_atom (least_at rows.now site) a }
{
    match rows.get(site as usize) {
        Some(row) => replace(row.as_slice(), a),
        None => a,
    }
}

fn replace_all(
    alloc: Global,
    rows: &[Row],
    site: u32,
    atoms: &[Atom],
) -> Result<Items<Atom>, NoMemory>
    ensures { IfOk result (λ new. new ≡ map (propagated_atom (least_at rows.now site)) atoms.now) }
{
    let mut new = Items::new(alloc);
    for a in atoms {
        new.push(replace_at(rows, site, *a))?;
    }
    Ok(new)
}

fn replace_update(rows: &[Row], site: u32, kind: Rmw) -> Rmw
    ensures { result ≡ update_with kind (map (propagated_atom (least_at rows.now site)) (atoms_of_update kind)) }
{
    match kind {
        Rmw::Add { a } => Rmw::Add {
            a: replace_at(rows, site, a),
        },
        Rmw::Swap { a } => Rmw::Swap {
            a: replace_at(rows, site, a),
        },
        Rmw::Cas { expected, new } => Rmw::Cas {
            expected: replace_at(rows, site, expected),
            new: replace_at(rows, site, new),
        },
    }
}

/// The statement, which has no blocks, with its atoms replaced.
fn replace_leaf(alloc: Global, rows: &[Row], site: u32, statement: &Stmt) -> Result<Stmt, NoMemory>
    ensures { IfOk result (λ new. (leaf : Leaf) → statement.now ≡ leaf_statement leaf → new ≡ leaf_statement (with_atoms leaf (map (propagated_atom (least_at rows.now site)) (atoms_in leaf)))) }
{
    match statement {
        Stmt::Copy { r, a } => Ok(Stmt::Copy {
            r: *r,
            a: replace_at(rows, site, *a),
        }),
        Stmt::Compute { r, op, a, b } => Ok(Stmt::Compute {
            r: *r,
            op: *op,
            a: replace_at(rows, site, *a),
            b: replace_at(rows, site, *b),
        }),
        Stmt::Store { x, a } => Ok(Stmt::Store {
            x: *x,
            a: replace_at(rows, site, *a),
        }),
        Stmt::AtomicStore { order, y, a } => Ok(Stmt::AtomicStore {
            order: *order,
            y: *y,
            a: replace_at(rows, site, *a),
        }),
        Stmt::Update { r, order, y, kind } => Ok(Stmt::Update {
            r: *r,
            order: *order,
            y: *y,
            kind: replace_update(rows, site, *kind),
        }),
        Stmt::Print { a } => Ok(Stmt::Print {
            a: replace_at(rows, site, *a),
        }),
        Stmt::Call { r, function, args } => {
            let args = replace_all(alloc, rows, site, args.as_slice())?;
            Ok(Stmt::Call {
                r: *r,
                function: *function,
                args,
            })
        }
        Stmt::Skip => Ok(Stmt::Skip),
        Stmt::Load { r, x } => Ok(Stmt::Load { r: *r, x: *x }),
        Stmt::AtomicLoad { r, order, y } => Ok(Stmt::AtomicLoad {
            r: *r,
            order: *order,
            y: *y,
        }),
        Stmt::Fence { order } => Ok(Stmt::Fence { order: *order }),
        _ => Ok(copy_statement(alloc, statement)?),
    }
}

/// A new block, and the site after it.
#[derive(Drop)]
struct NewBlock {
    block: Block,
    site: u32,
}

/// A new statement, and the site after it.
#[derive(Drop)]
struct NewStatement {
    statement: Stmt,
    site: u32,
}

#[cycle(rewrites)]
fn replace_block(
    alloc: Global,
    rows: &[Row],
    block: &Block,
    site: u32,
) -> Result<NewBlock, NoMemory>
    requires small { site + sites_of (tree_of block.now) < 2 ^ 32 }
    ensures block { IfOk result (λ new. tree_of new.block ≡ propagated_tree (least_at rows.now) site (tree_of block.now)) }
    ensures site { IfOk result (λ new. new.site ≡ site + sites_of (tree_of block.now)) }
{
    let mut kept = Items::new(alloc);
    let mut at = site;
    for statement in block.statements.as_slice() {
        let new = replace_statement(alloc, rows, statement, at)?;
        kept.push(new.statement)?;
        at = new.site;
    }
    Ok(NewBlock {
        block: Block { statements: kept },
        site: at,
    })
}

/// The same for a statement, whatever comes after it.
#[cycle(rewrites)]
fn replace_statement(
    alloc: Global,
    rows: &[Row],
    statement: &Stmt,
    site: u32,
) -> Result<NewStatement, NoMemory>
    requires small { site + sites_of (before_rest statement.now Empty) < 2 ^ 32 }
    ensures statement { IfOk result (λ new. (rest : Tree) → propagated_tree (least_at rows.now) site (before_rest statement.now rest) ≡ before_rest new.statement (propagated_tree (least_at rows.now) (site + sites_of (before_rest statement.now Empty)) rest)) }
    ensures site { IfOk result (λ new. new.site ≡ site + sites_of (before_rest statement.now Empty)) }
{
    match statement {
        Stmt::If { a, yes, no } => {
            let one = replace_block(alloc, rows, yes, site + 1)?;
            let other = replace_block(alloc, rows, no, one.site)?;
            Ok(NewStatement {
                statement: Stmt::If {
                    a: replace_at(rows, site, *a),
                    yes: one.block,
                    no: other.block,
                },
                site: other.site,
            })
        }
        Stmt::While { a, body } => {
            let turn = replace_block(alloc, rows, body, site + 1)?;
            Ok(NewStatement {
                statement: Stmt::While {
                    a: replace_at(rows, site, *a),
                    body: turn.block,
                },
                site: turn.site,
            })
        }
        _ => {
            let new = replace_leaf(alloc, rows, site, statement)?;
            Ok(NewStatement {
                statement: new,
                site: site + 1,
            })
        }
    }
}

/// The function with what is known in the place of the registers that it reads. The only error is want of memory.
#[tactic(auto, using(il_paths::proofs::Callers::sites_agree))]
pub(crate) fn propagated(alloc: Global, f: &Function) -> Result<Function, NoMemory>
    requires sites { site_count f.now.body.statements ≤ 4096 }
    requires registers { length f.now.registers ≤ 64 }
    ensures { IfOk result (λ g. IsPropagated f.now g) }
{
    let known = known_rows(alloc, f)?;
    let body = replace_block(alloc, known.rows.as_slice(), &f.body, 0)?;
    Ok(Function {
        name: copy_name(alloc, &f.name)?,
        params: f.params,
        registers: copy_names(alloc, f.registers.as_slice())?,
        body: body.block,
        result: replace(known.end.as_slice(), f.result),
    })
}
