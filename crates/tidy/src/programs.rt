//! A program is tidied function by function.
ghost use Rattle.std.specs.Prelude.{IfOk};
ghost use Rattle.il_syntax.specs.WellFormed.{IsWellFormed};
ghost use Rattle.tidy.specs.Programs.{IsTidiedProgram};

use crate::passes::tidy;
use il_syntax::{Program, with_functions};
use sqlite_items::Items;
use std::alloc::Global;
use values_undef::NoMemory;

/// The program with each of its functions tidied. The only error is want of memory.
pub fn tidy_program(alloc: Global, p: &Program) -> Result<Program, NoMemory>
    requires { IsWellFormed p.now }
    ensures tidied { IfOk result (λ q. IsTidiedProgram p.now q) }
    ensures well_formed { IfOk result (λ q. IsWellFormed q) }
{
    let mut functions = Items::new(alloc);
    for f in p.functions.as_slice() {
        functions.push(tidy(alloc, f)?)?;
    }
    Ok(with_functions(alloc, p, functions)?)
}
