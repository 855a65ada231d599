//! Whether two runs end with the same views and messages.
ghost use Rattle.std.specs.Prelude.{◌≡◌, ◌⊎◌, ◌↔◌, ℕ, ◌<◌, IsTrue, IsSome, length};
ghost use Rattle.views.specs.ThreadView.{IsOrdered};
ghost use Rattle.message_memory.specs.Memory.{messages, message_at};
ghost use Rattle.outcome_moves.specs.Ends.{HasEnd};
ghost use Rattle.equal_nodes.specs.Same.{AreBeside};

use message_memory::laws::messages_are_maps;
use message_memory::{Histories, Message, PlainMemory};
use outcome_moves::end_in;
use values_undef::Entry;
use views::{Times, View};

/// Whether two views of as many locations are equal.
pub fn same_view(a: &View, b: &View) -> bool
    requires first { IsOrdered a.now }
    requires second { IsOrdered b.now }
    requires places { length b.now.cur ≡ length a.now.cur }
    ensures { IsTrue result ↔ (a.now ≡ b.now) }
{
    a.is_below(b) && b.is_below(a)
}

fn same_times(a: &Times, b: &Times) -> bool
    requires { length b.now ≡ length a.now }
    ensures { IsTrue result ↔ (a.now ≡ b.now) }
{
    a.is_below(b) && b.is_below(a)
}

/// Whether two messages that hand on as many timestamps are equal.
fn same_message(a: &Message, b: &Message) -> bool
    requires { length b.now.times ≡ length a.now.times }
    ensures { IsTrue result ↔ (a.now ≡ b.now) }
{
    if a.from != b.from {
        return false;
    }
    if a.to != b.to {
        return false;
    }
    if a.value != b.value {
        return false;
    }
    same_times(&a.times, &b.times)
}

/// Whether the messages of location `y` that end at `to` are equal, or neither is there.
fn same_at(a: &PlainMemory, b: &PlainMemory, y: u32, to: u64) -> bool
    requires beside { AreBeside a.now.memory b.now.memory }
    requires there { y < length a.now.memory.atomic }
    ensures { IsTrue result ↔ (message_at to (messages a.now.memory y) ≡ message_at to (messages b.now.memory y)) }
{
    match (a.histories().find(y, to), b.histories().find(y, to)) {
        (None, None) => true,
        (Some(first), Some(second)) => same_message(first, second),
        _ => false,
    }
}

/// Whether the messages of location `y` are equal that the entries put in.
fn same_ends(a: &PlainMemory, b: &PlainMemory, y: u32, entries: &[Entry]) -> bool
    requires beside { AreBeside a.now.memory b.now.memory }
    requires there { y < length a.now.memory.atomic }
    ensures { IsTrue result ↔ ((to : ℕ) → HasEnd entries.now y to → message_at to (messages a.now.memory y) ≡ message_at to (messages b.now.memory y)) }
{
    for k in 0..entries.len() {
        if let Some(to) = end_in(&entries[k], y) {
            if !same_at(a, b, y, to) {
                return false;
            }
        }
    }
    true
}

/// Whether a location has the same messages in both, the first one and those that the entries of either run put in.
fn same_location(
    a: &PlainMemory,
    b: &PlainMemory,
    y: u32,
    first: &[Entry],
    second: &[Entry],
) -> bool
    requires beside { AreBeside a.now.memory b.now.memory }
    requires there { y < length a.now.memory.atomic }
    requires ends { (to : ℕ) → IsSome (message_at to (messages a.now.memory y)) → (to ≡ 0) ⊎ HasEnd first.now y to }
    requires ends_too { (to : ℕ) → IsSome (message_at to (messages b.now.memory y)) → (to ≡ 0) ⊎ HasEnd second.now y to }
    ensures { IsTrue result ↔ (messages a.now.memory y ≡ messages b.now.memory y) }
{
    messages_are_maps();
    if !same_at(a, b, y, 0) {
        return false;
    }
    if !same_ends(a, b, y, first) {
        return false;
    }
    same_ends(a, b, y, second)
}

/// Whether the atomic locations have the same messages.
pub fn same_messages(
    a: &PlainMemory,
    b: &PlainMemory,
    first: &[Entry],
    second: &[Entry],
    locations: u32,
) -> bool
    requires beside { AreBeside a.now.memory b.now.memory }
    requires locations { length a.now.memory.atomic ≡ locations }
    requires ends { (y : ℕ) (to : ℕ) → IsSome (message_at to (messages a.now.memory y)) → (to ≡ 0) ⊎ HasEnd first.now y to }
    requires ends_too { (y : ℕ) (to : ℕ) → IsSome (message_at to (messages b.now.memory y)) → (to ≡ 0) ⊎ HasEnd second.now y to }
    ensures { IsTrue result ↔ (a.now.memory.atomic ≡ b.now.memory.atomic) }
{
    for y in 0..locations {
        if !same_location(a, b, y, first, second) {
            return false;
        }
    }
    true
}
