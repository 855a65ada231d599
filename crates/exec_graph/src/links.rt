//! Links from entries to entries.
use std::marker::Model;

/// An entry, and the one that it is linked to: of a reading entry the one that wrote what it read, or
/// none where that is the initial message; of a race the write that the entry doesn't know of.
#[derive(Clone, Copy, PartialEq, Eq)]
pub struct Link {
    pub entry: u32,
    pub other: Option<u32>,
}

/// Links by rising entry, which contracts see as a list.
#[derive(Drop)]
pub struct Links {
    pub links: Vec<Link>,
}

impl Model for Links {
    ghost use Rattle.std.specs.Prelude.{List};
    ghost use Rattle.exec_graph.specs.declared.links.Link.{Link};

    ghost Value = { List Link };

    ghost view = { λ l. l.links.items };
}
