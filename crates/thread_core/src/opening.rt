//! Where a program begins: each of its threads, and the values of its locations.
ghost use Rattle.std.specs.Prelude.{◌≡◌, map, IfOk};
ghost use Rattle.std.specs.List.{AllByRecursion};
ghost use Rattle.il_syntax.specs.Given.{declared_values};
ghost use Rattle.thread_core.specs.Programs.{IsProperProgram};
ghost use Rattle.thread_core.specs.Frames.{start_of};
ghost use Rattle.thread_core.specs.Steps.{stack_in, ArePositions};

use crate::local::{Local, start};
use il_syntax::{Location, Program};
use sqlite_items::Items;
use std::alloc::Global;
use values_undef::NoMemory;

/// The beginning of each thread.
pub fn start_threads(alloc: Global, p: &Program) -> Result<Vec<Local>, NoMemory>
    requires { IsProperProgram p.now }
    ensures stacks { IfOk result (λ v. map (stack_in p.now) v.items ≡ map (start_of p.now) p.now.threads) }
    ensures positions { IfOk result (λ v. AllByRecursion (ArePositions p.now) v.items) }
{
    let mut locals = Vec::new(alloc);
    for i in 0..p.threads.len() {
        let local = start(alloc, p, i as u32)?;
        locals.push(local)?;
    }
    Ok(locals)
}

/// The declared values of locations.
pub fn declared_values(alloc: Global, locations: &Items<Location>) -> Result<Vec<i64>, NoMemory>
    ensures { IfOk result (λ v. v.items ≡ declared_values locations.now) }
{
    let mut values = Vec::new(alloc);
    for location in locations.as_slice() {
        values.push(location.value)?;
    }
    Ok(values)
}
