//! The parts of a text before and after a line.

ghost use Rattle.std.specs.Prelude.{◌≡◌, ◌↔◌, IsTrue, MatchOption};
ghost use Rattle.text_parts.specs.Division.{DividesAtLine, DividesAtWholeLine, IsPast, LacksLine, LacksWholeLine, StopsAt};

use crate::lines::first_line;

/// Whether a line, without its newline, is the word.
fn is_word(line: &[u8], word: &[u8]) -> bool
    ensures { IsTrue result ↔ (line.now ≡ word.now) }
{
    line == word
}

/// The rest of a text from its first whole line that is the word, or from the end of its last whole line.
fn past_others<'t>(text: &'t [u8], word: &[u8]) -> &'t [u8]
    ensures past { IsPast word.now text.now result.now }
    ensures stops { StopsAt word.now result.now }
{
    let mut rest = text;
    'lines: while let Some((line, after)) = first_line(rest) {
        if is_word(line, word) {
            return rest;
        }
        rest = after;
    }
    rest
}

/// The text before the first whole line that is exactly this word, and the text after that line. A last piece without its
/// newline is no whole line.
pub fn divide_at_whole_line<'t>(text: &'t [u8], word: &[u8]) -> Option<(&'t [u8], &'t [u8])>
    ensures { MatchOption result (LacksWholeLine word.now text.now) (λ x. DividesAtWholeLine word.now text.now x.0.now x.1.now) }
{
    let rest = past_others(text, word);
    match first_line(rest) {
        Some((_line, after)) => {
            let before = &text[..text.len() - rest.len()];
            Some((before, after))
        }
        None => None,
    }
}

/// The text before the first line that is exactly this word, and the text after that line. The newline of the last line
/// may be missing.
pub fn divide_at_line<'t>(text: &'t [u8], word: &[u8]) -> Option<(&'t [u8], &'t [u8])>
    ensures { MatchOption result (LacksLine word.now text.now) (λ x. DividesAtLine word.now text.now x.0.now x.1.now) }
{
    let rest = past_others(text, word);
    match first_line(rest) {
        Some((_line, after)) => {
            let before = &text[..text.len() - rest.len()];
            Some((before, after))
        }
        None if is_word(rest, word) => {
            let before = &text[..text.len() - rest.len()];
            Some((before, &[]))
        }
        None => None,
    }
}
