//! Whether a function accepts another, or where it first doesn't.
ghost use Rattle.std.specs.Prelude.{◌≡◌, ◌≤◌, [], ◌∷◌, ◌&&◌, ◌++◌, map, length, slice_index_or, IfOk, OnOk};
ghost use Rattle.il_syntax.specs.Statements.{head_of, site_count};
ghost use Rattle.il_paths.specs.Tree.{Tree, Empty, tree_of, before_rest, heads_in};
ghost use Rattle.tidy.specs.Atoms.{update_with, with_atoms};
ghost use Rattle.tidy.specs.Decided as decided;
ghost use Rattle.tidy.specs.Decided.{IsFirstFailing};
ghost use Rattle.tidy.specs.Judged.{IsTidiness};

use crate::atoms::{are_equal, atoms_of};
use crate::known::{KnownPair, Row, is_known, known_rows};
use crate::live::live_after;
use crate::propagate::least_in;
use il_syntax::{Atom, Block, Function, Name, Rmw, Stmt, sites};
use location_sets::{Set, has};
use rewriting::same_head;
use sqlite_items::Items;
use std::alloc::Global;
use values_undef::{NoMemory, Op, Val, apply};

/// Whether a function accepts another.
#[derive(Clone, Copy, PartialEq, Eq)]
pub enum Tidiness {
    Yes,
    /// It doesn't at this site, or, by the number of sites, in what stands at none.
    No { site: u32 },
}

/// Whether the second atom stands for the first: it is the same, or known for the first one's register.
fn stands_for(row: &[KnownPair], a: Atom, b: Atom) -> bool
    ensures { result ≡ decided.stands_in row.now a b }
{
    if are_equal(a, b) {
        return true;
    }
    match a {
        Atom::Const(_) => false,
        Atom::Reg(r) => is_known(row, r, b),
    }
}

fn all_stand(row: &[KnownPair], atoms: &[Atom], others: &[Atom]) -> bool
    ensures { result ≡ decided.all_stand row.now atoms.now others.now }
{
    match atoms {
        [] => match others {
            [] => true,
            [_, ..] => false,
        },
        [a, more @ ..] => match others {
            [] => false,
            [b, rest @ ..] => stands_for(row, *a, *b) && all_stand(row, more, rest),
        },
    }
}

/// The atom of this number, or another.
fn atom_or(atoms: &[Atom], at: usize, other: Atom) -> Atom
    ensures { result ≡ slice_index_or atoms.now at other }
{
    match atoms.get(at) {
        Some(a) => *a,
        None => other,
    }
}

fn update_with(kind: Rmw, atoms: &[Atom]) -> Rmw
    ensures { result ≡ update_with kind atoms.now }
{
    match kind {
        Rmw::Add { a } => Rmw::Add {
            a: atom_or(atoms, 0, a),
        },
        Rmw::Swap { a } => Rmw::Swap {
            a: atom_or(atoms, 0, a),
        },
        Rmw::Cas { expected, new } => Rmw::Cas {
            expected: atom_or(atoms, 0, expected),
            new: atom_or(atoms, 1, new),
        },
    }
}

/// A block without statements.
fn no_block(alloc: Global) -> Block {
    Block {
        statements: Items::new(alloc),
    }
}

/// The statement with these atoms, its blocks left out.
fn with_atoms(alloc: Global, statement: &Stmt, atoms: &[Atom]) -> Result<Stmt, NoMemory>
    ensures { IfOk result (λ new. head_of new ≡ with_atoms (head_of statement.now) atoms.now) }
{
    match *statement {
        Stmt::Skip => Ok(Stmt::Skip),
        Stmt::Copy { r, a } => Ok(Stmt::Copy {
            r,
            a: atom_or(atoms, 0, a),
        }),
        Stmt::Compute { r, op, a, b } => Ok(Stmt::Compute {
            r,
            op,
            a: atom_or(atoms, 0, a),
            b: atom_or(atoms, 1, b),
        }),
        Stmt::Load { r, x } => Ok(Stmt::Load { r, x }),
        Stmt::Store { x, a } => Ok(Stmt::Store {
            x,
            a: atom_or(atoms, 0, a),
        }),
        Stmt::AtomicLoad { r, order, y } => Ok(Stmt::AtomicLoad { r, order, y }),
        Stmt::AtomicStore { order, y, a } => Ok(Stmt::AtomicStore {
            order,
            y,
            a: atom_or(atoms, 0, a),
        }),
        Stmt::Update { r, order, y, kind } => Ok(Stmt::Update {
            r,
            order,
            y,
            kind: update_with(kind, atoms),
        }),
        Stmt::Fence { order } => Ok(Stmt::Fence { order }),
        Stmt::Print { a } => Ok(Stmt::Print {
            a: atom_or(atoms, 0, a),
        }),
        Stmt::If { a, .. } => Ok(Stmt::If {
            a: atom_or(atoms, 0, a),
            yes: no_block(alloc),
            no: no_block(alloc),
        }),
        Stmt::While { a, .. } => Ok(Stmt::While {
            a: atom_or(atoms, 0, a),
            body: no_block(alloc),
        }),
        Stmt::Call { r, function, .. } => Ok(Stmt::Call {
            r,
            function,
            args: Items::from_slice(alloc, atoms)?,
        }),
    }
}

/// Whether the new statement is the old one but for atoms, which stand for the old ones.
fn differs_in_atoms(
    alloc: Global,
    row: &[KnownPair],
    old: &Stmt,
    new: &Stmt,
) -> Result<bool, NoMemory>
    ensures { IfOk result (λ b. b ≡ decided.differs_in_atoms row.now (head_of old.now) (head_of new.now)) }
{
    let from = atoms_of(alloc, old)?;
    let to = atoms_of(alloc, new)?;
    let other = with_atoms(alloc, old, to.as_slice())?;
    Ok(all_stand(row, from.as_slice(), to.as_slice()) && same_head(new, &other))
}

/// The constant that an atom is known to be.
fn constant_in(row: &[KnownPair], a: Atom) -> Option<i64>
    ensures { result ≡ decided.constant_in row.now a }
{
    match a {
        Atom::Const(n) => Some(n),
        Atom::Reg(r) => match least_in(row, r) {
            Some(Atom::Const(n)) => Some(n),
            Some(Atom::Reg(_)) => None,
            None => None,
        },
    }
}

/// Whether the arithmetic of two constants gives the number.
fn gives_number(op: Op, a: Option<i64>, b: Option<i64>, v: i64) -> bool
    ensures { result ≡ decided.gives_number op a b v }
{
    match a {
        None => false,
        Some(m) => match b {
            None => false,
            Some(n) => match apply(op, Val::Def(m), Val::Def(n)) {
                Some(Val::Def(found)) => found == v,
                Some(Val::Undef) => false,
                None => false,
            },
        },
    }
}

/// Whether the statement copies what the computation gives.
fn copies_number(row: &[KnownPair], r: u32, op: Op, a: Atom, b: Atom, new: &Stmt) -> bool
    ensures { result ≡ decided.copies_number row.now r op a b (head_of new.now) }
{
    match new {
        Stmt::Copy {
            r: s,
            a: Atom::Const(v),
        } => { r == *s && gives_number(op, constant_in(row, a), constant_in(row, b), *v) }
        _ => false,
    }
}

/// Whether the old statement is a computation, and the new one a copy of what it gives.
fn is_done(row: &[KnownPair], old: &Stmt, new: &Stmt) -> bool
    ensures { result ≡ decided.is_done row.now (head_of old.now) (head_of new.now) }
{
    match old {
        Stmt::Compute { r, op, a, b } => copies_number(row, *r, *op, *a, *b, new),
        _ => false,
    }
}

/// Whether the old statement is an assignment that may go.
fn may_go(live: &[u32], old: &Stmt) -> bool
    ensures { result ≡ decided.may_go live.now (head_of old.now) }
{
    match old {
        Stmt::Copy { r, .. } => !has(live, *r),
        Stmt::Compute { r, .. } => !has(live, *r),
        Stmt::Load { r, .. } => !has(live, *r),
        _ => false,
    }
}

/// Whether the old statement is an assignment to a register that isn't live, and the new one a `skip`.
fn is_cleared(live: &[u32], old: &Stmt, new: &Stmt) -> bool
    ensures { result ≡ decided.is_cleared live.now (head_of old.now) (head_of new.now) }
{
    match new {
        Stmt::Skip => may_go(live, old),
        _ => false,
    }
}

/// Whether the new statement may stand for the old one.
fn statement_accepted(
    alloc: Global,
    row: &[KnownPair],
    live: &[u32],
    old: &Stmt,
    new: &Stmt,
) -> Result<bool, NoMemory>
    ensures { IfOk result (λ b. b ≡ decided.statement_accepted row.now live.now (head_of old.now) (head_of new.now)) }
{
    if is_cleared(live, old, new) || is_done(row, old, new) {
        return Ok(true);
    }
    Ok(differs_in_atoms(alloc, row, old, new)?)
}

/// Whether the blocks have as many statements, which are of one kind place by place, with inner blocks equal in
/// the same way.
#[cycle(blocks)]
fn same_blocks(block: &Block, other: &Block) -> bool
    ensures { result ≡ decided.same_blocks (tree_of block.now) (tree_of other.now) }
{
    let others = other.statements.as_slice();
    let mut at = 0;
    for statement in block.statements.as_slice() {
        match others.get(at) {
            None => return false,
            Some(beside) => {
                if !same_kind(statement, beside) {
                    return false;
                }
            }
        }
        at += 1;
    }
    at == others.len()
}

/// The same for a statement, whatever comes after it.
#[cycle(blocks)]
fn same_kind(statement: &Stmt, other: &Stmt) -> bool
    ensures { (rest more : Tree) → decided.same_blocks (before_rest statement.now rest) (before_rest other.now more) ≡ (result && decided.same_blocks rest more) }
{
    match statement {
        Stmt::If { yes, no, .. } => match other {
            Stmt::If {
                yes: one,
                no: two,
                ..
            } => same_blocks(yes, one) && same_blocks(no, two),
            _ => false,
        },
        Stmt::While { body, .. } => match other {
            Stmt::While { body: turn, .. } => same_blocks(body, turn),
            _ => false,
        },
        _ => match other {
            Stmt::If { .. } => false,
            Stmt::While { .. } => false,
            _ => true,
        },
    }
}

/// Puts the statement, without its blocks, to the end.
#[tactic(auto, using(crate::proofs::HeadsListed::heads_push, crate::proofs::AtomLaws::own_atoms))]
fn push_head(alloc: Global, statement: &Stmt, heads: &mut Vec<Stmt>) -> Result<(), NoMemory>
    ensures { OnOk result (map head_of heads.new.items ≡ map head_of heads.old.items ++ head_of statement.now ∷ []) }
{
    let atoms = atoms_of(alloc, statement)?;
    heads.push(with_atoms(alloc, statement, atoms.as_slice())?)?;
    Ok(())
}

/// Puts the statements of a block to the end in text order, each without its blocks.
#[cycle(heads)]
fn list_heads(alloc: Global, block: &Block, heads: &mut Vec<Stmt>) -> Result<(), NoMemory>
    ensures { OnOk result (map head_of heads.new.items ≡ map head_of heads.old.items ++ heads_in (tree_of block.now)) }
{
    for statement in block.statements.as_slice() {
        list_heads_by(alloc, statement, heads)?;
    }
    Ok(())
}

/// The same for a statement.
#[cycle(heads)]
fn list_heads_by(alloc: Global, statement: &Stmt, heads: &mut Vec<Stmt>) -> Result<(), NoMemory>
    ensures { OnOk result (map head_of heads.new.items ≡ map head_of heads.old.items ++ heads_in (before_rest statement.now Empty)) }
{
    push_head(alloc, statement, heads)?;
    match statement {
        Stmt::If { yes, no, .. } => {
            list_heads(alloc, yes, heads)?;
            list_heads(alloc, no, heads)?;
        }
        Stmt::While { body, .. } => {
            list_heads(alloc, body, heads)?;
        }
        _ => {}
    }
    Ok(())
}

/// Whether the names are equal, one by one.
fn same_names(names: &[Name], others: &[Name]) -> bool
    ensures { result ≡ decided.names_equal names.now others.now }
{
    match names {
        [] => match others {
            [] => true,
            [_, ..] => false,
        },
        [name, more @ ..] => match others {
            [] => false,
            [other, rest @ ..] => name.as_slice() == other.as_slice() && same_names(more, rest),
        },
    }
}

/// Whether names, parameters, registers and blocks are equal.
fn same_frame(f: &Function, g: &Function) -> bool
    ensures { result ≡ decided.same_frame f.now g.now }
{
    f.name.as_slice() == g.name.as_slice()
        && f.params == g.params
        && same_names(f.registers.as_slice(), g.registers.as_slice())
        && same_blocks(&f.body, &g.body)
}

/// Whether the new statement at a site may stand for the old one there.
fn accepted_at(
    alloc: Global,
    rows: &[Row],
    sets: &[Set],
    olds: &[Stmt],
    news: &[Stmt],
    site: u32,
) -> Result<bool, NoMemory>
    ensures { IfOk result (λ b. b ≡ decided.accepted_in rows.now sets.now olds.now news.now site) }
{
    let (Some(old), Some(new)) = (olds.get(site as usize), news.get(site as usize)) else {
        return Ok(true);
    };
    let row = match rows.get(site as usize) {
        Some(row) => row.as_slice(),
        None => &[],
    };
    let live = match sets.get(site as usize) {
        Some(set) => set.as_slice(),
        None => &[],
    };
    Ok(statement_accepted(alloc, row, live, old, new)?)
}

/// The first site below a number whose new statement may not stand for the old one.
fn first_refused(
    alloc: Global,
    rows: &[Row],
    sets: &[Set],
    olds: &[Stmt],
    news: &[Stmt],
    count: u32,
) -> Result<Option<u32>, NoMemory>
    ensures { IfOk result (IsFirstFailing (decided.accepted_in rows.now sets.now olds.now news.now) count) }
{
    for site in 0..count {
        if !accepted_at(alloc, rows, sets, olds, news, site)? {
            return Ok(Some(site));
        }
    }
    Ok(None)
}

/// Whether f accepts g, or the first site at which it doesn't: g's number of sites where names, parameters,
/// registers or blocks differ, and where the results alone do. The only error is want of memory.
pub fn judge(alloc: Global, f: &Function, g: &Function) -> Result<Tidiness, NoMemory>
    requires registers { length f.now.registers ≤ 64 }
    requires sites { site_count g.now.body.statements ≤ 4096 }
    ensures { IfOk result (λ answer. IsTidiness f.now g.now answer) }
{
    let count = sites(g);
    if !same_frame(f, g) {
        return Ok(Tidiness::No { site: count });
    }
    let known = known_rows(alloc, f)?;
    let live = live_after(alloc, g)?;
    let mut olds = Vec::new(alloc);
    list_heads(alloc, &f.body, &mut olds)?;
    let mut news = Vec::new(alloc);
    list_heads(alloc, &g.body, &mut news)?;
    let refused = first_refused(
        alloc,
        known.rows.as_slice(),
        live.as_slice(),
        &olds,
        &news,
        count,
    )?;
    if let Some(site) = refused {
        return Ok(Tidiness::No { site });
    }
    if !stands_for(known.end.as_slice(), f.result, g.result) {
        return Ok(Tidiness::No { site: count });
    }
    Ok(Tidiness::Yes)
}
