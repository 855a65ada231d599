//! Which registers are live after each site.
ghost use Rattle.std.specs.Prelude.{◌≡◌, ◌↔◌, ◌<◌, ℕ, [], true, false, not, ◌&&◌, ◌||◌, ◌==◌, IfOk, OnOk, slice_index_or};
ghost use Rattle.std.specs.Option.{option_map_or};
ghost use Rattle.il_syntax.specs.Statements.{head_of};
ghost use Rattle.il_paths.specs.Heads.{gives};
ghost use Rattle.il_syntax.specs.declared.program.Function.{Function};
ghost use Rattle.il_paths.specs.Tree.{tree_of, sites_of};
ghost use Rattle.location_sets.specs.Sets.{has};
ghost use Rattle.tidy.specs.Atoms.{among_atoms, atoms_of_update, reads_register};
ghost use Rattle.tidy.specs.Live.{AreLiveSets};

use crate::atoms::register_given;
use backward_sets::{Backward, sets_after};
use il_syntax::{Atom, Function, Rmw, Stmt};
use location_sets::{Set, either, put, without};
use sqlite_items::Items;
use std::alloc::Global;
use values_undef::NoMemory;

/// Puts the registers among the atoms into a set.
fn put_atoms(set: &mut Set, atoms: &[Atom]) -> Result<(), NoMemory>
    ensures { OnOk result ((x : ℕ) → has x set.new ≡ (among_atoms x atoms.now || has x set.old)) }
{
    match atoms {
        [] => Ok(()),
        [a, more @ ..] => {
            put_atoms(set, more)?;
            if let Atom::Reg(r) = a {
                put(set, *r)?;
            }
            Ok(())
        }
    }
}

fn put_atoms_of_update(set: &mut Set, kind: Rmw) -> Result<(), NoMemory>
    ensures { OnOk result ((x : ℕ) → has x set.new ≡ (among_atoms x (atoms_of_update kind) || has x set.old)) }
{
    match kind {
        Rmw::Add { a } => put_atoms(set, &[a]),
        Rmw::Swap { a } => put_atoms(set, &[a]),
        Rmw::Cas { expected, new } => put_atoms(set, &[expected, new]),
    }
}

/// Puts the registers that the statement reads into a set.
fn put_read(set: &mut Set, statement: &Stmt) -> Result<(), NoMemory>
    ensures { OnOk result ((x : ℕ) → has x set.new ≡ (reads_register x (head_of statement.now) || has x set.old)) }
{
    match statement {
        Stmt::Copy { a, .. } => put_atoms(set, &[*a]),
        Stmt::Compute { a, b, .. } => put_atoms(set, &[*a, *b]),
        Stmt::Store { a, .. } => put_atoms(set, &[*a]),
        Stmt::AtomicStore { a, .. } => put_atoms(set, &[*a]),
        Stmt::Update { kind, .. } => put_atoms_of_update(set, *kind),
        Stmt::Print { a } => put_atoms(set, &[*a]),
        Stmt::If { a, .. } => put_atoms(set, &[*a]),
        Stmt::While { a, .. } => put_atoms(set, &[*a]),
        Stmt::Call { args, .. } => put_atoms(set, args.as_slice()),
        Stmt::Skip => Ok(()),
        Stmt::Load { .. } => Ok(()),
        Stmt::AtomicLoad { .. } => Ok(()),
        Stmt::Fence { .. } => Ok(()),
    }
}

/// The set without what a statement gives.
fn without_given(alloc: Global, statement: &Stmt, set: &[u32]) -> Result<Set, NoMemory>
    ensures { IfOk result (λ new. (x : ℕ) → has x new ≡ (not (option_map_or (λ k. k == x) (gives (head_of statement.now)) false) && has x set.now)) }
{
    match register_given(statement) {
        Some(r) => Ok(without(alloc, set, r)?),
        None => Ok(Items::from_slice(alloc, set)?),
    }
}

/// The walk that finds live registers.
struct Liveness;

impl Backward for Liveness {
    ghost use Rattle.path_meets.specs.Chain.{may_rank};
    ghost use Rattle.tidy.specs.Live.{live_change};

    ghost rank = { λ w. may_rank };

    ghost change = { λ w. live_change };

    fn set_before(&self, alloc: Global, statement: &Stmt, set: &[u32]) -> Result<Set, NoMemory> {
        let mut new = without_given(alloc, statement, set)?;
        put_read(&mut new, statement)?;
        Ok(new)
    }

    fn meet(&self, alloc: Global, one: &[u32], other: &[u32]) -> Result<Set, NoMemory> {
        Ok(either(alloc, one, other)?)
    }
}

/// The registers that are live after each site of the function. The only error is want of memory.
#[tactic(auto, using(crate::proofs::LiveLaws::ordered))]
pub(crate) fn live_after(alloc: Global, f: &Function) -> Result<Items<Set>, NoMemory>
    ensures { IfOk result (λ sets. AreLiveSets f.now sets) }
{
    let mut end = Items::new(alloc);
    put_atoms(&mut end, &[f.result])?;
    Ok(sets_after(alloc, &Liveness, &f.body, end.as_slice())?)
}
