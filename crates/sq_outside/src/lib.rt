//! Where the bytes of a program come from and where they go.
//!
//! A [`Source`] and a [`Sink`] are all that this program sees of its outside. Each has two meanings: the bytes that it
//! has left or that it has written, where it can tell them, and a count of its faults. An answer [`Failed`] comes only
//! where that count rose, so a caller that reports a fault names an object that had one.
//! [`MemSource`] and [`MemSink`] hold their bytes in memory, and fail where they are told to. [`StdSource`] and
//! [`StdSink`] stand over a reader and a writer of `std`: they are the trusted edge, and tell nothing of content.
//! [`SureSource`] and [`SureSink`] hold their bytes too, and never fail.
//! Read first `specs/Source.antt` and `specs/Sink.antt`.
#![tactic(auto)]

pub mod faults;
pub mod memory;
pub mod sink;
pub mod source;
pub mod standard;
pub mod sure;

pub use memory::{MemSink, MemSource};
pub use sink::{Sink, put_all};
pub use source::{ReadFault, Source, read_all};
pub use standard::{StdSink, StdSource};
pub use sure::{SureSink, SureSource};

/// A source or a sink had a fault in this call. Nothing was moved by it.
#[derive(Clone, Copy, Debug, PartialEq, Eq)]
pub struct Failed;

#[cfg(test)]
mod tests;
