//! Names of new registers.
ghost use Rattle.std.specs.Prelude.{◌≡◌, ◌++◌, ◌<◌, ◌^◌, length, IfOk};
ghost use Rattle.load_hoist.specs.Introduced as spec;
ghost use Rattle.load_hoist.specs.Taken.{AreTakenBelow};
ghost use Rattle.il_syntax.specs.Name.{is_among};

use crate::growth::Growth;
use il_syntax::{Name, is_among};
use itoa::Buffer;
use sqlite_items::Items;
use std::alloc::Global;
use values_undef::NoMemory;

/// The name of this number.
fn hoisted_name(alloc: Global, number: u64) -> Result<Name, NoMemory>
    ensures { IfOk result (λ name. name ≡ spec.hoisted_name number) }
{
    let mut bytes = Vec::new(alloc);
    bytes.extend_from_slice(b"_h")?;
    let mut buffer = Buffer::new();
    bytes.extend_from_slice(buffer.format(number).as_bytes())?;
    Ok(Items::from_vec(bytes))
}

/// Whether a register so far, or something of the program, has the name.
fn is_taken(names: &[Name], growth: &Growth, name: &[u8]) -> bool
    ensures { result ≡ is_among (growth.now.registers ++ names.now) name.now }
{
    is_among(growth.registers.as_slice(), name) || is_among(names, name)
}

/// A name that nothing has, and its number.
#[derive(Drop)]
pub(crate) struct NewName {
    pub name: Name,
    pub number: u64,
}

/// The name of the least number that nothing has, where the numbers below `from` are known to be taken. Among
/// as many numbers as there are names and one more, one is free, so no more are tried.
pub(crate) fn next_name(
    alloc: Global,
    names: &[Name],
    growth: &Growth,
    from: u64,
) -> Result<NewName, NoMemory>
    requires few { length (growth.now.registers ++ names.now) < 2 ^ 63 }
    requires taken { AreTakenBelow from (growth.now.registers ++ names.now) }
    ensures number { IfOk result (λ new. new.number ≡ spec.next_number names.now growth.now) }
    ensures name { IfOk result (λ new. new.name ≡ spec.hoisted_name new.number) }
{
    let tries = (growth.registers.len() + names.len()) as u64;
    let mut number = from;
    while number < tries {
        let name = hoisted_name(alloc, number)?;
        if !is_taken(names, growth, name.as_slice()) {
            return Ok(NewName { name, number });
        }
        number += 1;
    }
    let name = hoisted_name(alloc, number)?;
    Ok(NewName { name, number })
}
