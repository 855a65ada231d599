//! What an indexed memory is.
use crate::IndexedMemory;
use message_memory::MessageMemory;

/// Asks that a memory may go to another thread.
fn may_be_sent<M: MessageMemory + Send>() {}

/// An indexed memory is a message memory, and may go to another thread.
pub fn indexed_memories_may_be_sent() {
    may_be_sent::<IndexedMemory>();
}
