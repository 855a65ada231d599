//! The names of messages.

/// The name of a message: an atomic location, and the timestamp where the message ends.
#[derive(Clone, Copy, PartialEq, Eq, PartialOrd, Ord)]
pub struct Stamp {
    pub location: u32,
    pub to: u64,
}
