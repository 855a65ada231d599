//! The line of an event, read back.
ghost use Rattle.std.specs.Prelude.{◌≡◌, ◌∷◌, [], ◌==◌, IfOk, codes, map, take};
ghost use Rattle.std.specs.List.{slice_split};
ghost use Rattle.journal_text.specs.Kind.{Decodes};
ghost use Rattle.journal_text.specs.Limits.{HasFewLocations, HasPlainNames};
ghost use Rattle.seq_text.specs.Event.{env_event_line, env_event_words, FitsEnvEvent};

use il_syntax::Program;
use journal_text::{location, number, value};
use seq_pair::EnvEvent;
use std::alloc::{AllocError, Global};
use std::str;

fn run(p: &Program, n: &str) -> Option<EnvEvent>
    ensures { Decodes (env_event_words p.now) (FitsEnvEvent p.now) (codes "run" ∷ (n.now ∷ [])) result }
{
    let n = number(n, 16384)?;
    if n == 0 {
        return None;
    }
    Some(EnvEvent::Run { n: n as u32 })
}

fn take(p: &Program, x: &str) -> Option<EnvEvent>
    requires { HasFewLocations p.now }
    ensures { Decodes (env_event_words p.now) (FitsEnvEvent p.now) (codes "take" ∷ (x.now ∷ [])) result }
{
    let x = location(x, p.na.as_slice())?;
    Some(EnvEvent::Take { x })
}

fn hide(p: &Program, x: &str) -> Option<EnvEvent>
    requires { HasFewLocations p.now }
    ensures { Decodes (env_event_words p.now) (FitsEnvEvent p.now) (codes "hide" ∷ (x.now ∷ [])) result }
{
    let x = location(x, p.na.as_slice())?;
    Some(EnvEvent::Hide { x })
}

fn values(p: &Program, target: &str, source: &str) -> Option<EnvEvent>
    ensures { Decodes (env_event_words p.now) (FitsEnvEvent p.now) (codes "value" ∷ (target.now ∷ (source.now ∷ []))) result }
{
    let target = value(target)?;
    let source = value(source)?;
    Some(EnvEvent::Value { target, source })
}

fn see(p: &Program, x: &str, v: &str) -> Option<EnvEvent>
    requires { HasFewLocations p.now }
    ensures { Decodes (env_event_words p.now) (FitsEnvEvent p.now) (codes "see" ∷ (x.now ∷ (v.now ∷ []))) result }
{
    let x = location(x, p.na.as_slice())?;
    let v = value(v)?;
    Some(EnvEvent::See { x, v })
}

fn gain(p: &Program, x: &str, target: &str, source: &str) -> Option<EnvEvent>
    requires { HasFewLocations p.now }
    ensures { Decodes (env_event_words p.now) (FitsEnvEvent p.now) (codes "gain" ∷ (x.now ∷ (target.now ∷ (source.now ∷ [])))) result }
{
    let x = location(x, p.na.as_slice())?;
    let target = value(target)?;
    let source = value(source)?;
    Some(EnvEvent::Gain { x, target, source })
}

/// An event of one word.
fn with_no_word(p: &Program, first: &str) -> Option<EnvEvent>
    ensures { Decodes (env_event_words p.now) (FitsEnvEvent p.now) (first.now ∷ []) result }
{
    match first {
        "enter" => Some(EnvEvent::Enter),
        "pass" => Some(EnvEvent::Pass),
        _ => None,
    }
}

/// An event with one word after its first.
fn with_one_word(p: &Program, first: &str, word: &str) -> Option<EnvEvent>
    requires { HasFewLocations p.now }
    ensures { Decodes (env_event_words p.now) (FitsEnvEvent p.now) (first.now ∷ (word.now ∷ [])) result }
{
    match first {
        "run" => run(p, word),
        "take" => take(p, word),
        "hide" => hide(p, word),
        _ => None,
    }
}

fn with_two_words(p: &Program, first: &str, second: &str, third: &str) -> Option<EnvEvent>
    requires { HasFewLocations p.now }
    ensures { Decodes (env_event_words p.now) (FitsEnvEvent p.now) (first.now ∷ (second.now ∷ (third.now ∷ []))) result }
{
    match first {
        "value" => values(p, second, third),
        "see" => see(p, second, third),
        _ => None,
    }
}

fn with_three_words(
    p: &Program,
    first: &str,
    second: &str,
    third: &str,
    fourth: &str,
) -> Option<EnvEvent>
    requires { HasFewLocations p.now }
    ensures { Decodes (env_event_words p.now) (FitsEnvEvent p.now) (first.now ∷ (second.now ∷ (third.now ∷ (fourth.now ∷ [])))) result }
{
    match first {
        "gain" => gain(p, second, third, fourth),
        _ => None,
    }
}

/// The event of these words.
fn event(p: &Program, words: &[&str]) -> Option<EnvEvent>
    requires { HasFewLocations p.now }
    ensures { Decodes (env_event_words p.now) (FitsEnvEvent p.now) (map (λ w. w.now) words.now) result }
{
    match words {
        [first] => with_no_word(p, first),
        [first, a] => with_one_word(p, first, a),
        [first, a, b] => with_two_words(p, first, a, b),
        [first, a, b, c] => with_three_words(p, first, a, b, c),
        _ => None,
    }
}

/// No event has more than four words.
const PIECES: usize = 5;

/// The first five pieces between blanks, which tell an event from a line with more of them.
fn pieces<'a>(alloc: Global, line: &'a str) -> Result<Vec<&'a str>, AllocError>
    ensures { IfOk result (λ v. map (λ x. x.now) v.items ≡ take 5 (slice_split (λ b. b == 32) line.entry.now)) }
{
    line.split(' ').take(PIECES).collect(alloc)
}

/// The event of a line of characters.
fn event_of_text(alloc: Global, p: &Program, line: &str) -> Result<Option<EnvEvent>, AllocError>
    requires few { HasFewLocations p.now }
    requires names { HasPlainNames p.now }
    ensures { IfOk result (λ o. Decodes (env_event_line p.now) (FitsEnvEvent p.now) line.now o) }
{
    let words = pieces(alloc, line)?;
    Ok(event(p, words.as_slice()))
}

/// The event that is written as the line, with no newline.
pub(crate) fn event_of_line(
    alloc: Global,
    p: &Program,
    line: &[u8],
) -> Result<Option<EnvEvent>, AllocError>
    requires few { HasFewLocations p.now }
    requires names { HasPlainNames p.now }
    ensures { IfOk result (λ o. Decodes (env_event_line p.now) (FitsEnvEvent p.now) line.now o) }
{
    match str::from_utf8(line) {
        Ok(line) => event_of_text(alloc, p, line),
        Err(_) => Ok(None),
    }
}
