//! The events of a text, each on a line of its own.
ghost use Rattle.std.specs.Prelude.{◌≡◌, MatchResult};
ghost use Rattle.il_syntax.specs.WellFormed.{IsWellFormed};
ghost use Rattle.journal_text.specs.Limits.{HasFewLocations, HasPlainNames};
ghost use Rattle.seq_text.specs.Events.{ReadsEnvEvents, IsEventsFault};
ghost use Rattle.seq_text.specs.declared.events.EventsFault.TheVariants.{NoMemory};

use crate::event::event_of_line;
use il_syntax::Program;
use seq_pair::EnvEvent;
use std::alloc::{AllocError, AllocFailed, Global};
use text_parts::next_line;

/// Why a text gave no events.
#[derive(Clone, Copy, PartialEq, Eq)]
pub enum EventsFault {
    /// After so many lines comes one that is no event, or one too many.
    Refused { lines: u32 },
    /// There was no memory to read it.
    NoMemory,
}

impl From<AllocError> for EventsFault {
    ghost from_gives = { λ _ e. e ≡ NoMemory };

    fn from(_error: AllocError) -> EventsFault {
        EventsFault::NoMemory
    }
}

impl<T: Drop> From<AllocFailed<T>> for EventsFault {
    ghost from_gives = { λ _ e. e ≡ NoMemory };

    fn from(_error: AllocFailed<T>) -> EventsFault {
        EventsFault::NoMemory
    }
}

/// The most lines of events.
pub const MOST_ENV_EVENTS: usize = 4096;

fn read_lines(alloc: Global, p: &Program, text: &[u8]) -> Result<Vec<EnvEvent>, EventsFault>
    requires few { HasFewLocations p.now }
    requires names { HasPlainNames p.now }
    ensures { MatchResult result (λ v. ReadsEnvEvents p.now text.now v.items) (IsEventsFault p.now text.now) }
{
    let mut events = Vec::new(alloc);
    let mut rest = text;
    'lines: while let Some((line, after)) = next_line(rest) {
        if events.len() == MOST_ENV_EVENTS {
            let lines = MOST_ENV_EVENTS as u32;
            return Err(EventsFault::Refused { lines });
        }
        let event = event_of_line(alloc, p, line)?;
        match event {
            Some(event) => {
                events.push(event)?;
                rest = after;
            }
            None => {
                let lines = events.len() as u32;
                return Err(EventsFault::Refused { lines });
            }
        }
    }
    Ok(events)
}

/// The events of a text, whose na locations are those of the program: each on a line of its own, at most
/// [`MOST_ENV_EVENTS`] of them; the newline of the last may be missing. The text is refused after the events that it
/// has, where the line after them is no event, or is one too many.
pub fn read_env_events(
    alloc: Global,
    p: &Program,
    text: &[u8],
) -> Result<Vec<EnvEvent>, EventsFault>
    requires { IsWellFormed p.now }
    ensures { MatchResult result (λ v. ReadsEnvEvents p.now text.now v.items) (IsEventsFault p.now text.now) }
{
    read_lines(alloc, p, text)
}
