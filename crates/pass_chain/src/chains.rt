//! The five functions of a chain, and the five programs.
ghost use Rattle.std.specs.Prelude.{◌≤◌, ◌<◌, ◌^◌, length, IfOk, OnOk};
ghost use Rattle.std.specs.List.{AllZip};
ghost use Rattle.il_syntax.specs.Statements.{site_count};
ghost use Rattle.il_syntax.specs.WellFormed.{names_of};
ghost use Rattle.pass_chain.specs.Chain.{IsOpt, IsOptAll};
ghost use Rattle.pass_chain.specs.Stages.{ArePut, AreStages};

use dead_store::drop_dead_stores;
use flow_facts::Facts;
use il_syntax::{Function, Functions, Names, Program, copy_function, with_functions};
use load_forward::forward_loads;
use load_hoist::introduce_loads;
use sqlite_items::Items;
use std::alloc::Global;
use store_forward::forward_stores;
use values_undef::NoMemory;

/// A function, and what each pass made of the one before.
#[derive(Drop)]
pub struct FunctionChain {
    pub source: Function,
    pub stored: Function,
    pub introduced: Function,
    pub loaded: Function,
    pub undead: Function,
}

/// A program, and what each pass made of the one before.
#[derive(Drop)]
pub struct ProgramChain {
    pub source: Program,
    pub stored: Program,
    pub introduced: Program,
    pub loaded: Program,
    pub undead: Program,
}

/// The chain of a function, by facts of any kind of table: forwarding from stores gives `stored`, loads put
/// before loops `introduced`, forwarding from loads `loaded`, and the removal of dead stores `undead`. `na` is
/// the number of non-atomic locations of the function's program, and `names` are the names of its locations and
/// functions. The only error is want of memory.
pub fn chain<F: Facts>(
    alloc: Global,
    facts: &F,
    f: &Function,
    na: u32,
    names: &Names,
) -> Result<FunctionChain, NoMemory>
    requires statements { site_count f.now.body.statements ≤ 4096 }
    requires names { length names.now < 2 ^ 32 }
    ensures { IfOk result (λ c. IsOpt na names.now f.now c) }
{
    let source = copy_function(alloc, f)?;
    let stored = forward_stores(alloc, facts, &source)?;
    let introduced = introduce_loads(alloc, &stored, na, names)?;
    let loaded = forward_loads(alloc, facts, &introduced)?;
    let undead = drop_dead_stores(alloc, &loaded)?;
    Ok(FunctionChain {
        source,
        stored,
        introduced,
        loaded,
        undead,
    })
}

/// The functions of all chains, those of each stage in their order.
#[derive(Drop)]
pub struct Stages {
    pub source: Functions,
    pub stored: Functions,
    pub introduced: Functions,
    pub loaded: Functions,
    pub undead: Functions,
}

/// Puts the five functions of a chain to the ends of the lists.
fn put_chain(stages: &mut Stages, chain: FunctionChain) -> Result<(), NoMemory>
    ensures { OnOk result (ArePut chain stages.old stages.new) }
{
    let FunctionChain {
        source,
        stored,
        introduced,
        loaded,
        undead,
    } = chain;
    stages.source.push(source)?;
    stages.stored.push(stored)?;
    stages.introduced.push(introduced)?;
    stages.loaded.push(loaded)?;
    stages.undead.push(undead)?;
    Ok(())
}

/// The chains taken apart, stage by stage: each function is moved.
fn stages_of(alloc: Global, chains: Vec<FunctionChain>) -> Result<Stages, NoMemory>
    ensures { IfOk result (λ stages. AreStages chains.items stages) }
{
    let mut stages = Stages {
        source: Items::new(alloc),
        stored: Items::new(alloc),
        introduced: Items::new(alloc),
        loaded: Items::new(alloc),
        undead: Items::new(alloc),
    };
    for chain in chains {
        put_chain(&mut stages, chain)?;
    }
    Ok(stages)
}

/// The five programs, of the chains of the program's functions in their order. The only error is want of memory.
pub fn gather(
    alloc: Global,
    p: &Program,
    chains: Vec<FunctionChain>,
) -> Result<ProgramChain, NoMemory>
    requires { AllZip (IsOpt (length p.now.na) (names_of p.now)) p.now.functions chains.items }
    ensures { IfOk result (λ c. IsOptAll p.now c) }
{
    let Stages {
        source,
        stored,
        introduced,
        loaded,
        undead,
    } = stages_of(alloc, chains)?;
    Ok(ProgramChain {
        source: with_functions(alloc, p, source)?,
        stored: with_functions(alloc, p, stored)?,
        introduced: with_functions(alloc, p, introduced)?,
        loaded: with_functions(alloc, p, loaded)?,
        undead: with_functions(alloc, p, undead)?,
    })
}
