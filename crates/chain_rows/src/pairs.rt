//! Programs of the generator: the four pairs of neighbours in their chains are accepted.
use flow_summary::Summed;
use gen_program::generate;
use il_syntax::{Function, Program, sites_within};
use parallel_driver::optimise;
use pass_chain::ProgramChain;
use std::alloc::Global;
use std::test::Fail;
use std::thread::Threads;
use validator::{Judged, same_shape, validate};
use values_undef::NoMemory;

/// Whether the target may stand for the source.
fn may_stand_for(alloc: Global, target: &Function, source: &Function) -> Result<bool, NoMemory> {
    if sites_within(target.body.statements.as_slice(), 4096).is_none() {
        return Ok(false);
    }
    let judged = validate(alloc, &Summed, source, target)?;
    Ok(judged == Judged::Yes)
}

/// Whether the programs have one shape, and each function of the target may stand for the source's.
fn is_accepted(alloc: Global, source: &Program, target: &Program) -> Result<bool, NoMemory> {
    let (sources, targets) = (source.functions.as_slice(), target.functions.as_slice());
    for (f, g) in sources.iter().zip(targets) {
        if !may_stand_for(alloc, g, f)? {
            return Ok(false);
        }
    }
    Ok(same_shape(source, target))
}

/// Whether each of the four pairs of neighbours is accepted.
fn are_accepted(alloc: Global, chain: &ProgramChain) -> Result<bool, NoMemory> {
    Ok(
        is_accepted(alloc, &chain.source, &chain.stored)?
            && is_accepted(alloc, &chain.stored, &chain.introduced)?
            && is_accepted(alloc, &chain.introduced, &chain.loaded)?
            && is_accepted(alloc, &chain.loaded, &chain.undead)?,
    )
}

/// The same of the chain of the program of this number.
fn are_accepted_of<R: Threads + Sync>(
    rt: &R,
    alloc: Global,
    number: u64,
) -> Result<bool, NoMemory> {
    let p = generate(alloc, number, 4)?;
    let chain = optimise(rt, alloc, &Summed, &p)?;
    are_accepted(alloc, &chain)
}

#[test]
fn each_pass_of_a_thousand_programs_is_accepted(rt: HostRuntime) -> Result<(), Fail> {
    for number in 0..1000u64 {
        assert!(rt; are_accepted_of(&rt, rt.alloc(), number)?);
    }
    Ok(())
}
