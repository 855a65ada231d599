//! All functions at once.
ghost use Rattle.std.specs.Prelude.{◌≡◌, ◌≤◌, ◌<◌, ◌^◌, ◌++◌, length, map, IfOk, OnOk};
ghost use Rattle.std.specs.List.{All, AllZip};
ghost use Rattle.il_syntax.specs.declared.program.Location.{Location};
ghost use Rattle.il_syntax.specs.declared.program.Function.{Function};
ghost use Rattle.il_syntax.specs.Statements.{site_count};
ghost use Rattle.il_syntax.specs.WellFormed.{names_of, IsWellFormed};
ghost use Rattle.pass_chain.specs.Chain.{IsOpt, IsOptAll};
ghost use Rattle.pass_chain.specs.Laws.{AreWellFormed};
ghost use Rattle.parallel_driver.specs.Neighbours.{AreNeighbours};

use flow_facts::Facts;
use il_syntax::{Function, Location, Names, Program, copy_name};
use pass_chain::{FunctionChain, ProgramChain, chain, gather};
use rayon::prelude::*;
use sqlite_items::Items;
use std::alloc::Global;
use std::thread::Threads;
use values_undef::NoMemory;

/// Puts the names of locations to the end.
fn push_location_names(
    alloc: Global,
    locations: &[Location],
    names: &mut Names,
) -> Result<(), NoMemory>
    ensures { OnOk result (names.new ≡ names.old ++ map (λ (l : Location). l.name) locations.now) }
{
    for location in locations {
        names.push(copy_name(alloc, &location.name)?)?;
    }
    Ok(())
}

/// Puts the names of functions to the end.
fn push_function_names(
    alloc: Global,
    functions: &[Function],
    names: &mut Names,
) -> Result<(), NoMemory>
    ensures { OnOk result (names.new ≡ names.old ++ map (λ (f : Function). f.name) functions.now) }
{
    for f in functions {
        names.push(copy_name(alloc, &f.name)?)?;
    }
    Ok(())
}

/// The names of a program's locations and functions.
fn names_of(alloc: Global, p: &Program) -> Result<Names, NoMemory>
    ensures { IfOk result (λ names. names ≡ names_of p.now) }
{
    let mut names = Items::new(alloc);
    push_location_names(alloc, p.na.as_slice(), &mut names)?;
    push_location_names(alloc, p.atomic.as_slice(), &mut names)?;
    push_function_names(alloc, p.functions.as_slice(), &mut names)?;
    Ok(names)
}

/// The chain of each function, in order, from as many threads as take part. A chain of few items would run in
/// one thread without `with_min_len`.
fn chains_of<F: Facts + Sync>(
    rt: &(impl Threads + Sync),
    alloc: Global,
    facts: &F,
    functions: &[Function],
    na: u32,
    names: &Names,
) -> Result<Vec<FunctionChain>, NoMemory>
    requires small { All (λ (f : Function). site_count f.body.statements ≤ 4096) functions.now }
    requires few { length names.now < 2 ^ 32 }
    ensures { IfOk result (λ chains. AllZip (IsOpt na names.now) functions.now chains.items) }
{
    functions
        .par_iter()
        .with_min_len(1)
        .map(
            |f: &Function| -> Result<FunctionChain, NoMemory>
                requires { (site_count f.now.body.statements ≤ 4096) × (length names.now < 2 ^ 32) }
                ensures { IfOk result (λ c. IsOpt na names.entry.now f.now c) }
            { chain(alloc, facts, f, na, names) },
        )
        .collect::<Result<Vec<FunctionChain>, NoMemory>>(rt, alloc)?
}

/// The chains of all functions of a program, gathered to five programs: exactly what one thread makes, however
/// many take part. Each of the five programs is well-formed, each neighbouring pair of them has one shape, and
/// each of its function pairs is accepted by the validator. The only error is want of memory.
///
/// Nothing is claimed of how many threads take part. The items of a list aren't moved between threads once
/// the list is split, so functions of very different size share badly.
pub fn optimise<F: Facts + Sync>(
    rt: &(impl Threads + Sync),
    alloc: Global,
    facts: &F,
    p: &Program,
) -> Result<ProgramChain, NoMemory>
    requires { IsWellFormed p.now }
    ensures chain { IfOk result (λ c. IsOptAll p.now c) }
    ensures well_formed { IfOk result (λ c. AreWellFormed c) }
    ensures neighbours { IfOk result (λ c. AreNeighbours c) }
{
    let names = names_of(alloc, p)?;
    let na = p.na.len() as u32;
    let chains = chains_of(rt, alloc, facts, p.functions.as_slice(), na, &names)?;
    gather(alloc, p, chains)
}
