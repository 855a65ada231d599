//! The message memory of the weak memory model: timestamped messages at atomic locations, a value
//! with a version at the others, and views. One access is one step.
//!
//! It is after the promising semantics of Kang, Hur, Lahav, Vafeiadis and Dreyer (POPL 2017), without
//! promises, and with one release view for a thread. Non-atomic locations are after "Sequential Reasoning
//! for Optimizing Compilers under Weak Memory Concurrency" of Cho, Lee, Lee, Hur and Lahav (PLDI
//! 2022): a racy read gives `Undef`, and a racy write fails. Orders are relaxed, acquire and
//! release, for accesses and for fences; there is no sequentially consistent access and no such fence.
//! Read `specs/Memory.antt` and `specs/Step.antt` first; `proofs/Examples.antt` shows them at work.
#![tactic(auto)]

mod candidates;
mod histories;
pub mod history;
mod history_memory;
mod initial;
pub mod laws;
pub mod memory;
pub mod message;
mod pool;
mod pooled;
mod room;
mod update;

pub use candidates::choice_at;
pub use histories::Histories;
pub use history::Call;
pub use history_memory::HistoryMemory;
pub use memory::MessageMemory;
pub use message::{Message, Versioned};
pub use pool::Pool;
pub use room::push_reserved;

/// A memory whose messages stand in one pool, in the order in which they came.
pub type PlainMemory = HistoryMemory<Pool>;
