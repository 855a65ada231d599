//! A message memory whose messages are found by halving.
//!
//! It is the memory of `message_memory`, access by access, kept otherwise: beside the pool of all messages
//! stands, for each atomic location, the list of its messages by rising timestamp (`specs/Sorted.antt`, to be
//! read first), and of each whole run of 256 neighbouring gaps between them how many are at least 1 and at
//! least 4 wide, so that an access needn't look at each message to know how many choices it has. A
//! compare-exchange does look at each, as its choice depends on the message's value.
#![tactic(auto)]

mod gaps;
mod index;
pub mod laws;
mod line;
mod ranks;
mod runs;
mod sorted;

pub use index::Index;
use message_memory::HistoryMemory;
pub use ranks::Rank;

/// A memory whose messages are found by halving.
pub type IndexedMemory = HistoryMemory<Index>;
