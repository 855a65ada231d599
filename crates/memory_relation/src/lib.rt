//! The memory of an optimised run and the memory of a run of its source, side by side.
//!
//! Each non-atomic location has a map from the versions of the target to those of the source, and the
//! views and messages of the source are images of the target's under these maps. A store that the target
//! left out leaves its location pending: the source makes it alone, and the thread that made it alone knows
//! the last version until it stores there again. Version maps are those of the simulations of promising
//! semantics with non-atomic accesses; the owner of a pending location takes the place of the reservation
//! or commitment that a later store will be made.
//!
//! Images are over plain lists of numbers and name no view and no memory. A view is only touched by what a
//! read respects, what the thread may come to respect, and what its relaxed writes hand on.
//!
//! Read first `specs/Relation.antt`, then `specs/Answering.antt` and `specs/Laws.antt`: one law for each
//! access. All is laws; there is no code to run.
#![tactic(auto)]

pub mod laws;
