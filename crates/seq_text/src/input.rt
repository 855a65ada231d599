//! From the bytes of an input to its two programs and its events.

ghost use Rattle.std.specs.Prelude.{◌≡◌, ◌≤◌, ◌<◌, ◌+◌, ◌-◌, ◌^◌, ℕ, List, length, IfOk, IfErr, MatchResult};
ghost use Rattle.il_syntax.specs.WellFormed.{IsWellFormed};
ghost use Rattle.il_syntax.specs.declared.program.Program.{Program};
ghost use Rattle.il_reader.specs.Refusal.{Refusal, IfRefused};
ghost use Rattle.pair_text.specs.Reading.{SpellTexts};
ghost use Rattle.seq_pair.specs.declared.event.EnvEvent.{EnvEvent};
ghost use Rattle.seq_text.specs.declared.fault.SeqRule.{SeqRule};
ghost use Rattle.seq_text.specs.Events.{most_env_events};
ghost use Rattle.seq_text.specs.Refusals.{event_line_number};
ghost use Rattle.seq_text.specs.Reading.{DividesSession, ReadsSession, IsFirstSessionRefusal, IsSessionAnswer};

use crate::events::{EventsFault, read_env_events};
use crate::fault::{SeqRule, session_fault};
use il_parser::InputFault;
use il_syntax::Program;
use pair_text::{ProgramPair, read_texts};
use seq_pair::EnvEvent;
use std::alloc::Global;
use text_parts::{divide_at_line, newlines};

/// A source program, one that may stand for it, and what an environment does.
#[derive(Drop)]
pub struct Session {
    pub source: Program,
    pub target: Program,
    pub events: Vec<EnvEvent>,
    /// The line of the first event; the next ones stand on the lines after it.
    pub first_line: u32,
}

/// The line of the first event.
fn first_line(source_text: &[u8], target_text: &[u8]) -> u32
    requires { length source_text.now + length target_text.now < 2 ^ 32 - 14 }
    ensures is { result ≡ event_line_number source_text.now target_text.now 0 }
    ensures few { result ≤ length source_text.now + length target_text.now + 3 }
{
    newlines(source_text) as u32 + newlines(target_text) as u32 + 3
}

/// Two programs with the events of a text.
fn with_events(
    alloc: Global,
    pair: ProgramPair,
    source_text: &[u8],
    target_text: &[u8],
    events_text: &[u8],
) -> Result<Session, InputFault<SeqRule>>
    requires source { IsWellFormed pair.source }
    requires target { IsWellFormed pair.target }
    requires spelled { SpellTexts source_text.now target_text.now pair.source pair.target }
    requires small { length source_text.now + length target_text.now + length events_text.now < 2 ^ 32 - 14 }
    ensures answer { (input : List ℕ) → DividesSession input source_text.now target_text.now events_text.now → IsSessionAnswer input result }
    ensures source { IfOk result (λ x. IsWellFormed x.source) }
    ensures target { IfOk result (λ x. IsWellFormed x.target) }
    ensures few { IfOk result (λ x. length x.events.items ≤ most_env_events) }
    ensures lines { IfOk result (λ x. x.first_line + length x.events.items < 2 ^ 32) }
{
    let ProgramPair { source, target } = pair;
    let first_line = first_line(source_text, target_text);
    match read_env_events(alloc, &source, events_text) {
        Ok(events) => Ok(Session {
            source,
            target,
            events,
            first_line,
        }),
        Err(EventsFault::Refused { lines }) => {
            Err(InputFault::at_line(SeqRule::E, first_line + lines))
        }
        Err(EventsFault::NoMemory) => Err(InputFault::NoMemory),
    }
}

/// The session of three texts.
fn texts(
    alloc: Global,
    source_text: &[u8],
    target_text: &[u8],
    events_text: &[u8],
) -> Result<Session, InputFault<SeqRule>>
    requires { length source_text.now + length target_text.now + length events_text.now < 2 ^ 32 - 14 }
    ensures answer { (input : List ℕ) → DividesSession input source_text.now target_text.now events_text.now → IsSessionAnswer input result }
    ensures source { IfOk result (λ x. IsWellFormed x.source) }
    ensures target { IfOk result (λ x. IsWellFormed x.target) }
    ensures few { IfOk result (λ x. length x.events.items ≤ most_env_events) }
    ensures lines { IfOk result (λ x. x.first_line + length x.events.items < 2 ^ 32) }
{
    match read_texts(alloc, source_text, target_text) {
        Ok(pair) => with_events(alloc, pair, source_text, target_text, events_text),
        Err(fault) => Err(session_fault(fault)),
    }
}

/// The session of an input.
fn read_input(alloc: Global, input: &[u8]) -> Result<Session, InputFault<SeqRule>>
    requires { length input.now < 2 ^ 32 - 1 }
    ensures answer { IsSessionAnswer input.now result }
    ensures source { IfOk result (λ x. IsWellFormed x.source) }
    ensures target { IfOk result (λ x. IsWellFormed x.target) }
    ensures few { IfOk result (λ x. length x.events.items ≤ most_env_events) }
    ensures lines { IfOk result (λ x. x.first_line + length x.events.items < 2 ^ 32) }
{
    let Some((source_text, rest)) = divide_at_line(input, b"target".as_slice()) else {
        return Err(InputFault::at_line(SeqRule::T, 1));
    };
    let Some((target_text, events_text)) = divide_at_line(rest, b"events".as_slice()) else {
        return Err(InputFault::at_line(SeqRule::E, 1));
    };
    texts(alloc, source_text, target_text, events_text)
}

/// What an input reads as, of fewer than 2^32 - 1 bytes, or its first refusal. The text of the source comes first, up to
/// the first line that is exactly `target`; then the text of the target, up to the first line after it that is exactly
/// `events`; then the events, at most [`crate::MOST_ENV_EVENTS`] lines of them, whose locations are the source's.
///
/// # Errors
/// A missing line between the texts is refused in line 1: rule `T` where the line `target` is missing, and rule `E` where no
/// line `events` comes after it. The source's first refusal comes next, and then the target's. At last rule `E` is refused
/// at the first line that is no event, or that is one too many. Lines are counted over the whole input.
pub fn read_session(alloc: Global, input: &[u8]) -> Result<Session, InputFault<SeqRule>>
    requires { length input.now < 2 ^ 32 - 1 }
    // What is answered is what the input reads as; a refusal that is answered is the first.
    ensures ok { IfOk result (λ x. ReadsSession input.now x.source x.target x.events.items x.first_line) }
    ensures source { IfOk result (λ x. IsWellFormed x.source) }
    ensures target { IfOk result (λ x. IsWellFormed x.target) }
    ensures few { IfOk result (λ x. length x.events.items ≤ most_env_events) }
    // Each event's line has a number of 32 bits.
    ensures lines { IfOk result (λ x. x.first_line + length x.events.items < 2 ^ 32) }
    ensures refused { IfErr result (λ e. IfRefused e (λ r. IsFirstSessionRefusal input.now r)) }
    // What the input reads as is answered, and so is its first refusal, unless memory runs out.
    ensures only { (p q : Program) (events : List EnvEvent) (line : ℕ) → ReadsSession input.now p q events line
        → MatchResult result (λ x. (x.source ≡ p) × (x.target ≡ q) × (x.events.items ≡ events) × (x.first_line ≡ line)) (λ e. e ≡ InputFault.NoMemory) }
    ensures exact { (r : Refusal SeqRule) → IsFirstSessionRefusal input.now r → MatchResult result (λ _. ⊥) (λ e. IfRefused e (λ q. q ≡ r)) }
{
    read_input(alloc, input)
}
