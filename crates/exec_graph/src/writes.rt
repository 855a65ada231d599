//! The entries that write a non-atomic location.
ghost use Rattle.std.specs.Prelude.{◌≡◌, ℕ, ◌<◌, ◌++◌, ◌∷◌, [], List, length, replicate, IfOk, OnOk, slice_set, slice_index_or};
ghost use Rattle.exec_graph.specs.Known.{na_written};
ghost use Rattle.exec_graph.specs.Made.{with_write};
ghost use Rattle.values_undef.specs.declared.value.Val.{Val as TheVal};

use std::alloc::Global;
use std::marker::Model;
use values_undef::{Event, NoMemory};

/// The entries that write a location, in order, which contracts see as a list.
#[derive(Drop)]
pub struct Writes {
    entries: Vec<u32>,
}

impl Model for Writes {
    ghost use Rattle.std.specs.Prelude.{List, ℕ};

    ghost Value = { List ℕ };

    ghost view = { λ w. w.entries.items };
}

impl Writes {
    /// No entries.
    fn none(alloc: Global) -> Writes
        ensures { result ≡ [] }
    {
        Writes {
            entries: Vec::new(alloc),
        }
    }

    /// One entry more.
    fn push(&mut self, entry: u32) -> Result<(), NoMemory>
        ensures { OnOk result (self.new ≡ self.old ++ entry ∷ []) }
    {
        self.entries.push(entry)?;
        Ok(())
    }

    /// The entries.
    pub(crate) fn as_slice(&self) -> &[u32]
        ensures { result.now ≡ self.now }
    {
        &self.entries
    }
}

/// No entries for each of so many locations.
pub(crate) fn writes_at_first(alloc: Global, locations: usize) -> Result<Vec<Writes>, NoMemory>
    ensures { IfOk result (λ writes. writes.items ≡ replicate locations []) }
{
    let mut writes = Vec::new(alloc);
    for i in 0..locations {
        writes.push(Writes::none(alloc))?;
    }
    Ok(writes)
}

/// Notes that entry `number` wrote a non-atomic location, if it did.
pub(crate) fn note_na_write(
    writes: &mut Vec<Writes>,
    number: u32,
    event: &Event,
) -> Result<(), NoMemory>
    requires there { (x version : ℕ) (v : TheVal) → event.now ≡ Event.NaWrite x v version → x < length writes.old.items }
    ensures { OnOk result (writes.new.items ≡ with_write writes.old.items number (na_written event.now)) }
{
    if let Event::NaWrite { x, .. } = *event {
        writes[x as usize].push(number)?;
    }
    Ok(())
}
