//! The atoms that a statement reads, and the register that it gives a value.
ghost use Rattle.std.specs.Prelude.{◌≡◌, [], ◌∷◌, IfOk};
ghost use Rattle.il_syntax.specs.Statements.{head_of};
ghost use Rattle.il_paths.specs.Heads.{gives};
ghost use Rattle.il_paths.specs.Atoms.{atoms_equal};
ghost use Rattle.tidy.specs.Atoms.{atoms_of_update, atoms_in};

use il_syntax::{Atom, Rmw, Stmt};
use sqlite_items::Items;
use std::alloc::Global;
use values_undef::NoMemory;

/// Whether two atoms are one.
pub(crate) fn are_equal(a: Atom, b: Atom) -> bool
    ensures { result ≡ atoms_equal a b }
{
    a == b
}

fn one(alloc: Global, a: Atom) -> Result<Items<Atom>, NoMemory>
    ensures { IfOk result (λ atoms. atoms ≡ a ∷ []) }
{
    Ok(Items::from_slice(alloc, &[a])?)
}

fn two(alloc: Global, a: Atom, b: Atom) -> Result<Items<Atom>, NoMemory>
    ensures { IfOk result (λ atoms. atoms ≡ a ∷ b ∷ []) }
{
    Ok(Items::from_slice(alloc, &[a, b])?)
}

fn atoms_of_update(alloc: Global, kind: Rmw) -> Result<Items<Atom>, NoMemory>
    ensures { IfOk result (λ atoms. atoms ≡ atoms_of_update kind) }
{
    match kind {
        Rmw::Add { a } => Ok(one(alloc, a)?),
        Rmw::Swap { a } => Ok(one(alloc, a)?),
        Rmw::Cas { expected, new } => Ok(two(alloc, expected, new)?),
    }
}

/// The atoms that the statement reads, its blocks left aside.
pub(crate) fn atoms_of(alloc: Global, statement: &Stmt) -> Result<Items<Atom>, NoMemory>
    ensures { IfOk result (λ atoms. atoms ≡ atoms_in (head_of statement.now)) }
{
    match statement {
        Stmt::Copy { a, .. } => Ok(one(alloc, *a)?),
        Stmt::Compute { a, b, .. } => Ok(two(alloc, *a, *b)?),
        Stmt::Store { a, .. } => Ok(one(alloc, *a)?),
        Stmt::AtomicStore { a, .. } => Ok(one(alloc, *a)?),
        Stmt::Update { kind, .. } => Ok(atoms_of_update(alloc, *kind)?),
        Stmt::Print { a } => Ok(one(alloc, *a)?),
        Stmt::If { a, .. } => Ok(one(alloc, *a)?),
        Stmt::While { a, .. } => Ok(one(alloc, *a)?),
        Stmt::Call { args, .. } => Ok(Items::from_slice(alloc, args.as_slice())?),
        Stmt::Skip => Ok(Items::new(alloc)),
        Stmt::Load { .. } => Ok(Items::new(alloc)),
        Stmt::AtomicLoad { .. } => Ok(Items::new(alloc)),
        Stmt::Fence { .. } => Ok(Items::new(alloc)),
    }
}

/// The register to which the statement gives a value.
pub(crate) fn register_given(statement: &Stmt) -> Option<u32>
    ensures { result ≡ gives (head_of statement.now) }
{
    match statement {
        Stmt::Copy { r, .. } => Some(*r),
        Stmt::Compute { r, .. } => Some(*r),
        Stmt::Load { r, .. } => Some(*r),
        Stmt::AtomicLoad { r, .. } => Some(*r),
        Stmt::Update { r, .. } => Some(*r),
        Stmt::Call { r, .. } => Some(*r),
        Stmt::Skip => None,
        Stmt::Store { .. } => None,
        Stmt::AtomicStore { .. } => None,
        Stmt::Fence { .. } => None,
        Stmt::Print { .. } => None,
        Stmt::If { .. } => None,
        Stmt::While { .. } => None,
    }
}
