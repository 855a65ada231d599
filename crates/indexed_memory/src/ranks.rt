//! How many messages a location has, where a timestamp stands among them, and how wide their gaps are.
ghost use Rattle.std.specs.Prelude.{◌≡◌, ◌<◌, length};
ghost use Rattle.indexed_memory.specs.Sorted.{AreSorted, history_of};
ghost use Rattle.indexed_memory.specs.Calls.{rank_in, gap_in};

use crate::sorted::{count_below, gap_after, message};
use message_memory::Message;

/// Where a timestamp stands among the messages of a location: `k` of them end below it, and one ends at
/// it, or none.
#[derive(Clone, Copy, PartialEq, Eq)]
pub enum Rank {
    At { k: u64 },
    Between { k: u64 },
}

/// The number of messages at these places.
#[tactic(auto, using(crate::proofs::Counting::length_newest))]
pub fn count_messages(_pool: &[Message], places: &[u32]) -> u64
    ensures { result ≡ length (history_of _pool.now places.now) }
{
    places.len() as u64
}

/// Where `to` stands among them.
pub fn rank_of(pool: &[Message], places: &[u32], to: u64) -> Rank
    requires { AreSorted pool.now places.now }
    ensures { result ≡ rank_in to (history_of pool.now places.now) }
{
    let k = count_below(pool, places, to);
    if k == places.len() {
        return Rank::Between { k: k as u64 };
    }
    if message(pool, places, k).to == to {
        return Rank::At { k: k as u64 };
    }
    Rank::Between { k: k as u64 }
}

/// The width of the gap after message `k`, by rising timestamp. The last has none.
pub fn gap_at(pool: &[Message], places: &[u32], k: usize) -> Option<u64>
    requires sorted { AreSorted pool.now places.now }
    requires there { k < length places.now }
    ensures { result ≡ gap_in k (history_of pool.now places.now) }
{
    if k == places.len() - 1 {
        return None;
    }
    Some(gap_after(pool, places, k))
}
