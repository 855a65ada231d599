//! A thread of an accepted target beside the same thread of its source: their code, their registers,
//! and what the target may take a register for, along the path that was run. Nothing here speaks of a
//! memory, so both the runs of one function alone and those of whole programs stand on it.
//!
//! The path that was run is carried, as a list of visits of the merged code (the source with the target's
//! own loads put in): what was judged of every path then speaks of this one. Facts come from levels along
//! that path; `read` and `alone` are arguments, so that permissions and views each give their own.
//!
//! Read first `specs/Frames.antt`, `specs/Next.antt` (what the two do next) and `specs/Facts.antt`; for
//! whole threads `specs/Wants.antt` and `specs/Stacks.antt`. All is laws; there is no code to run.
#![tactic(auto)]

pub mod laws;
