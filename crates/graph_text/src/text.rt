//! The whole text.
ghost use Rattle.std.specs.Prelude.{◌≡◌, ◌++◌, IfOk, OnOk};
ghost use Rattle.graph_text.specs.GraphText as spec;

use crate::lines::{push, push_links, push_number};
use exec_graph::Links;
use std::alloc::{AllocError, Global};
use values_undef::{Bytes, NoMemory};

fn push_count(out: &mut Vec<u8>, entries: u64) -> Result<(), AllocError>
    ensures { OnOk result (out.new.items ≡ out.old.items ++ spec.count_line entries) }
{
    push(out, b"entries ")?;
    push_number(out, entries)?;
    push(out, b"\n")
}

/// The text of a graph of so many entries: a line `rf K W` for each entry K that reads a message, where W is the
/// entry that wrote it, or `init` where nothing did; and a line `race K W` for each entry K with a race, where W is the
/// other access. They come by rising K. The last line is `entries` and their number.
///
/// # Errors
/// Want of memory.
pub fn write_graph(
    alloc: Global,
    reads: &Links,
    races: &Links,
    entries: u64,
) -> Result<Bytes, NoMemory>
    ensures { IfOk result (λ bytes. bytes ≡ spec.graph_text reads.now races.now entries) }
{
    let mut out = Vec::new(alloc);
    push_links(&mut out, reads.links.as_slice(), races.links.as_slice())?;
    push_count(&mut out, entries)?;
    Ok(Bytes { bytes: out })
}
