//! The memory with which commands run programs.
use indexed_memory::IndexedMemory;

/// What a run keeps its locations in: every command uses this one.
pub(crate) type Memory = IndexedMemory;
