//! The text of a session of `seq`: its input, which is a source, the line `target`, a target, the line `events` and
//! the events of an environment; and its output, a line for each thing that target and source are seen to do.
//!
//! `specs/Event.antt` has the line of each event, `specs/Events.antt` what the text of the events reads as,
//! `specs/Reading.antt` what an input reads as, and which refusal of another is the first; `specs/Output.antt` the lines of
//! the output.
#![tactic(auto)]

mod event;
mod events;
mod fault;
mod input;
pub mod laws;
mod output;

pub use events::{EventsFault, MOST_ENV_EVENTS, read_env_events};
pub use fault::SeqRule;
pub use input::{Session, read_session};
pub use output::write_trace;
