//! The lines of a text.

ghost use Rattle.std.specs.Prelude.{◌≡◌, ◌==◌, ◌++◌, [], true, position, MatchOption};
ghost use Rattle.text_parts.specs.Lines.{has_no_newline, newlines, whole_line, IsNextLine};

/// The place of the first newline.
pub fn newline(text: &[u8]) -> Option<usize>
    ensures { result ≡ position (λ b. b == 10) text.now }
{
    text.iter().position(|b| *b == b'\n')
}

/// How many lines end in a text.
pub fn newlines(text: &[u8]) -> usize
    ensures { result ≡ newlines text.now }
{
    text.iter().filter(|b| **b == b'\n').count()
}

/// The first line without its newline, and what comes after it, where the text has a newline.
pub fn first_line(text: &[u8]) -> Option<(&[u8], &[u8])>
    ensures { MatchOption result (has_no_newline text.now ≡ true) (λ x. (has_no_newline x.0.now ≡ true) × (text.now ≡ whole_line x.0.now ++ x.1.now)) }
{
    match newline(text) {
        Some(length) => Some((&text[..length], &text[length + 1..])),
        None => None,
    }
}

/// The first line of a text without its newline, which may be missing, and what comes after it.
pub fn next_line(text: &[u8]) -> Option<(&[u8], &[u8])>
    ensures { MatchOption result (text.now ≡ []) (λ x. IsNextLine text.now x.0.now x.1.now) }
{
    if text.is_empty() {
        return None;
    }
    match first_line(text) {
        Some(cut) => Some(cut),
        None => Some((text, &[])),
    }
}
