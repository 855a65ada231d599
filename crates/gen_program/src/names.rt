//! Names of a letter and a number, and what bears them.
ghost use Rattle.std.specs.Prelude.{◌≡◌, IfOk};
ghost use Rattle.gen_program.specs.Generated.{numbered, names_of_letter, locations_of_letter};

use il_syntax::{Location, Locations, Name, Names};
use itoa::Buffer;
use sqlite_items::Items;
use std::alloc::Global;
use values_undef::NoMemory;

/// The letter, and the number after it.
pub(crate) fn numbered(alloc: Global, letter: u8, number: u32) -> Result<Name, NoMemory>
    ensures { IfOk result (λ name. name ≡ numbered letter number) }
{
    let mut bytes = Vec::new(alloc);
    bytes.push(letter)?;
    let mut buffer = Buffer::new();
    bytes.extend_from_slice(buffer.format(number).as_bytes())?;
    Ok(Items::from_vec(bytes))
}

/// So many names of the letter.
#[tactic(auto, using(crate::proofs::Steps::more_names))]
pub(crate) fn names(alloc: Global, letter: u8, count: u32) -> Result<Names, NoMemory>
    ensures { IfOk result (λ names. names ≡ names_of_letter letter count) }
{
    let mut names = Items::new(alloc);
    for number in 0..count {
        names.push(numbered(alloc, letter, number)?)?;
    }
    Ok(names)
}

/// So many locations of the letter, all 0.
#[tactic(auto, using(crate::proofs::Steps::more_locations))]
pub(crate) fn locations(alloc: Global, letter: u8, count: u32) -> Result<Locations, NoMemory>
    ensures { IfOk result (λ locations. locations ≡ locations_of_letter letter count) }
{
    let mut locations = Items::new(alloc);
    for number in 0..count {
        let name = numbered(alloc, letter, number)?;
        locations.push(Location { name, value: 0 })?;
    }
    Ok(locations)
}
