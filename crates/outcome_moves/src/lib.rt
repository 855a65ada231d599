//! The moves of the search for all outcomes, made on the machine.
//!
//! A node of the search is kept as the journal of a run that leads to it, and nothing else: the state is made again from
//! the beginning, entry by entry, by the machine itself. To make room behind a message, the timestamps of the journal are
//! moved. So a move costs as much as its run is long, and each node has its witness.
//!
//! Read `specs/Moves.antt` first, and then the clauses of `moves_of`.
#![tactic(auto)]

mod all;
mod ending;
mod moves;
mod room;
mod standing;

pub use all::moves_of;
pub use ending::ended_run;
pub use moves::{Move, end_in};
pub use room::moved_entries;
pub use standing::stand;
