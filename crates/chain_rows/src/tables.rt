//! `Walked`, which goes over a function until no level falls, beside `Summed`: of programs of the generator both find the
//! same best atoms, and the passes make the same program by either.
use flow_facts::{Facts, Kind, Table, Walked};
use flow_summary::Summed;
use gen_program::generate;
use il_printer::print;
use il_syntax::{Function, sites_within};
use parallel_driver::optimise;
use std::alloc::Global;
use std::test::Fail;
use std::thread::Threads;
use values_undef::NoMemory;

/// Whether both have the same best atom of each of the four locations before the site.
fn agree_before(one: &Table, other: &Table, site: u32) -> bool {
    for x in 0..4 {
        if one.best(site, x) != other.best(site, x) {
            return false;
        }
    }
    true
}

/// The same before each site of the function.
fn agree_on(alloc: Global, f: &Function, kind: Kind) -> Result<bool, NoMemory> {
    let Some(count) = sites_within(f.body.statements.as_slice(), 4096) else {
        return Ok(false);
    };
    let walked = Walked.before(alloc, f, kind)?;
    let summed = Summed.before(alloc, f, kind)?;
    for site in 0..count {
        if !agree_before(&walked, &summed, site) {
            return Ok(false);
        }
    }
    Ok(true)
}

/// The same of each function of the program of this number.
fn agree_on_program(alloc: Global, number: u64, kind: Kind) -> Result<bool, NoMemory> {
    let p = generate(alloc, number, 4)?;
    for f in p.functions.as_slice() {
        if !agree_on(alloc, f, kind)? {
            return Ok(false);
        }
    }
    Ok(true)
}

/// Whether the passes make the same program of it by either table.
fn optimise_alike<R: Threads + Sync>(rt: &R, alloc: Global, number: u64) -> Result<bool, NoMemory> {
    let p = generate(alloc, number, 4)?;
    let walked = optimise(rt, alloc, &Walked, &p)?;
    let summed = optimise(rt, alloc, &Summed, &p)?;
    let one = print(alloc, &walked.undead)?;
    let other = print(alloc, &summed.undead)?;
    Ok(one.bytes.as_slice() == other.bytes.as_slice())
}

#[test]
fn both_tables_have_the_same_best_atoms(rt: HostRuntime) -> Result<(), Fail> {
    for number in 0..6u64 {
        assert!(rt; agree_on_program(rt.alloc(), number, Kind::Stores)?);
        assert!(rt; agree_on_program(rt.alloc(), number, Kind::Loads)?);
        assert!(rt; agree_on_program(rt.alloc(), number, Kind::Both)?);
    }
    Ok(())
}

#[test]
fn the_passes_make_the_same_program_by_either(rt: HostRuntime) -> Result<(), Fail> {
    for number in 0..6u64 {
        assert!(rt; optimise_alike(&rt, rt.alloc(), number)?);
    }
    Ok(())
}
