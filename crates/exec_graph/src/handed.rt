//! What is kept of a message.
ghost use Rattle.std.specs.Prelude.{◌≡◌, IfOk};

use std::alloc::Global;
use std::marker::Model;
use values_undef::NoMemory;
use views::Times;

/// What is kept of a message that an entry wrote: the entry, and what the message hands on. That lies beside the map, which moves
/// what it keeps.
#[derive(Drop)]
pub(crate) struct Handed {
    writer: u32,
    times: Box<Times>,
}

impl Model for Handed {
    ghost use Rattle.exec_graph.specs.Handed.{Handed as HandedOn};

    ghost Value = { HandedOn };

    ghost view = { λ h. record { writer = h.writer; times = h.times.value } };
}

impl Handed {
    /// What is kept of the message of this entry, which hands on these times.
    pub(crate) fn by(alloc: Global, writer: u32, times: Times) -> Result<Handed, NoMemory>
        ensures { IfOk result (λ h. h ≡ record { writer = writer; times = times }) }
    {
        let times = Box::new(alloc, times)?;
        Ok(Handed { writer, times })
    }

    /// The entry that wrote it.
    pub(crate) fn writer(&self) -> u32
        ensures { result ≡ self.now.writer }
    {
        self.writer
    }

    /// What it hands on.
    pub(crate) fn times(&self) -> &Times
        ensures { result.now ≡ self.now.times }
    {
        &self.times
    }
}
