//! What it is for one journal to refine another, and how a journal is played on another program.
//!
//! A journal of an optimised program refines one of its source where both have done the same but for
//! accesses to non-atomic locations and for values that the source leaves undetermined, or where the source
//! fails after a beginning of that. This is behaviour refinement as of verified compilers; it departs in
//! that a trace keeps each atomic access with its timestamps, not the outputs alone, so that refined
//! journals can be followed entry by entry, and in that it bounds the steps that each thread has used.
//!
//! `play` makes the source's journal from the optimised program's, by the source's machine alone: it never
//! looks at the optimised program. Nothing here speaks of an optimisation.
//!
//! Read first `specs/Refinement.antt`, then `specs/Playing.antt`, which is the condition of `play`.
#![tactic(auto)]

pub mod laws;
mod playing;

pub use playing::play;
