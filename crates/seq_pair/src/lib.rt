//! Target and source of one function, run together in an environment that a list of events plays: the
//! refinement of SEQ by Cho, Lee, Lee, Hur and Lahav ("Sequential reasoning for optimizing compilers under
//! weak memory concurrency", PLDI 2022), for one environment at a time. docs/SEQ.md has the steps, the lawful
//! events and what differs from the paper.
//!
//! Read first `specs/Pair.antt` (which events are lawful, and what each does), `specs/Labels.antt` (which labels
//! match) and `specs/Laws.antt` (what holds of accepted pairs). `specs/Related.antt` is the relation by which
//! the laws are proved, and no contract speaks of it.
#![tactic(auto)]

mod event;
mod functions;
mod labels;
pub mod laws;
mod pairing;
mod playing;
mod run;
mod stage;
mod states;
mod trace;

pub use event::EnvEvent;
pub use run::seq_pair;
pub use trace::{PairEnd, PairFault, PairLabel, PairLabels, PairTrace};
