//! The lines of links.
ghost use Rattle.std.specs.Prelude.{◌≡◌, ◌≤◌, ◌++◌, ◌∷◌, [], OnOk, codes, length};
ghost use Rattle.std.specs.Fmt.{decimal};
ghost use Rattle.std.specs.List.{flat_map, join_with_byte, position, position_or_len};
ghost use Rattle.text_parts.specs.Lines.{whole_line};
ghost use Rattle.graph_text.specs.GraphText as spec;

use exec_graph::Link;
use itoa::Buffer;
use std::alloc::AllocError;

/// Appends a text.
pub(crate) fn push(out: &mut Vec<u8>, text: &[u8]) -> Result<(), AllocError>
    ensures { OnOk result (out.new.items ≡ out.old.items ++ text.now) }
{
    out.extend_from_slice(text)
}

/// Appends a number as it is written.
pub(crate) fn push_number(out: &mut Vec<u8>, n: u64) -> Result<(), AllocError>
    ensures { OnOk result (out.new.items ≡ out.old.items ++ decimal n) }
{
    let mut buffer = Buffer::new();
    push(out, buffer.format(n).as_bytes())
}

/// The other end of a link.
fn push_other(out: &mut Vec<u8>, other: Option<u32>) -> Result<(), AllocError>
    ensures { OnOk result (out.new.items ≡ out.old.items ++ spec.other_word other) }
{
    match other {
        Some(entry) => push_number(out, u64::from(entry)),
        None => push(out, b"init"),
    }
}

/// The line of a link, by the word for what it tells.
fn push_link(out: &mut Vec<u8>, word: &[u8], link: Link) -> Result<(), AllocError>
    ensures { OnOk result (out.new.items ≡ out.old.items ++ whole_line (spec.link_line word.now link)) }
{
    push(out, word)?;
    push(out, b" ")?;
    push_number(out, u64::from(link.entry))?;
    push(out, b" ")?;
    push_other(out, link.other)?;
    push(out, b"\n")
}

fn push_races(out: &mut Vec<u8>, races: &[Link]) -> Result<(), AllocError>
    ensures { OnOk result (out.new.items ≡ out.old.items ++ spec.race_lines races.now) }
{
    for race in races {
        push_link(out, b"race", *race)?;
    }
    Ok(())
}

/// The place of the first race that is of this entry or of a later one.
fn first_from(races: &[Link], entry: u32) -> Option<usize>
    ensures { result ≡ position (spec.is_from entry) races.now }
{
    races.iter().position(|race| entry <= race.entry)
}

/// How many of the races, which come by rising entry, are of entries before this one.
#[tactic(auto, using(crate::proofs::Places::place_or_length, crate::proofs::Places::place_within))]
fn earlier(races: &[Link], entry: u32) -> usize
    ensures count { result ≡ position_or_len (spec.is_from entry) races.now }
    ensures within { result ≤ length races.now }
{
    first_from(races, entry).unwrap_or(races.len())
}

/// The lines of reads and races, by rising entry.
pub(crate) fn push_links(
    out: &mut Vec<u8>,
    reads: &[Link],
    races: &[Link],
) -> Result<(), AllocError>
    ensures { OnOk result (out.new.items ≡ out.old.items ++ spec.link_lines reads.now races.now) }
{
    let mut left = races;
    for read in reads {
        let (before, after) = left.split_at(earlier(left, read.entry));
        push_races(out, before)?;
        push_link(out, b"rf", *read)?;
        left = after;
    }
    push_races(out, left)
}
