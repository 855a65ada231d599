//! The line of an expectation, read back.
ghost use Rattle.std.specs.Prelude.{◌≡◌, ◌<◌, ◌∷◌, ◌++◌, [], ◌==◌, ℤ, ℕ, List, IfOk, MatchOption, length, map, take};
ghost use Rattle.std.specs.Fmt.{decimal, signed_decimal};
ghost use Rattle.std.specs.List.{All, slice_split};
ghost use Rattle.il_syntax.specs.Text.{location_name};
ghost use Rattle.il_syntax.specs.WellFormed.{IsWellFormed};
ghost use Rattle.journal_text.specs.Kind.{Decodes};
ghost use Rattle.journal_text.specs.Limits.{Has64Bits};
ghost use Rattle.journal_text.specs.Line.{value_word};
ghost use Rattle.litmus.specs.declared.outcome.Printed.{Printed};
ghost use Rattle.litmus_text.specs.declared.expectation.ExpectedWord.{ExpectedWord};
ghost use Rattle.litmus_text.specs.declared.expectation.LastValue.{LastValue};
ghost use Rattle.litmus_text.specs.Expectation.{FitsExpectation, FitsLast, FitsOutput, FitsWord, expectation_line, expectation_words, expectation_kind, expected_word, last_word, named_locations, output_word};

use crate::expectation::{Expectation, ExpectedWord, LastValue};
use il_syntax::Program;
use journal_text::{location, number, value};
use litmus::Printed;
use std::alloc::{AllocError, Global};
use std::str;
use values_undef::Val;

/// Whether some outcome is expected, by the first word of a line.
fn kind(word: &str) -> Option<bool>
    ensures { Decodes expectation_kind (λ some. Unit {0}) word.now result }
{
    match word {
        "some" => Some(true),
        "none" => Some(false),
        _ => None,
    }
}

/// The signed number of the word.
#[tactic(auto, using(crate::proofs::ExpectationWords::undef_no_number, crate::proofs::ExpectationWords::no_value_no_number))]
fn signed(word: &str) -> Option<i64>
    ensures { Decodes signed_decimal Has64Bits word.now result }
{
    match value(word) {
        Some(Val::Def(v)) => Some(v),
        Some(Val::Undef) => None,
        None => None,
    }
}

/// The output of a thread and a value.
fn output_of(thread: &str, v: &str) -> Option<Printed>
    ensures { MatchOption result ((o : Printed) → FitsOutput o → thread.now ≡ decimal o.thread → v.now ≡ signed_decimal o.value → ⊥)
        (λ o. FitsOutput o × (thread.now ≡ decimal o.thread) × (v.now ≡ signed_decimal o.value)) }
{
    let thread = number(thread, 15)?;
    let value = signed(v)?;
    Some(Printed {
        thread: thread as u32,
        value,
    })
}

/// The first three pieces between colons, which tell an output from a word with more of them.
fn pieces<'a>(alloc: Global, word: &'a str) -> Result<Vec<&'a str>, AllocError>
    ensures { IfOk result (λ v. map (λ x. x.now) v.items ≡ take 3 (slice_split (λ b. b == 58) word.entry.now)) }
{
    word.split(':').take(3).collect(alloc)
}

/// The output of the pieces of a word.
fn output_of_pieces(pieces: &[&str]) -> Option<Printed>
    ensures { Decodes (λ o. decimal o.thread ∷ (signed_decimal o.value ∷ [])) FitsOutput (map (λ x. x.now) pieces.now) result }
{
    match pieces {
        [thread, value] => output_of(thread, value),
        _ => None,
    }
}

/// The output that the word is.
fn output(alloc: Global, word: &str) -> Result<Option<Printed>, AllocError>
    ensures { IfOk result (λ o. Decodes output_word FitsOutput word.now o) }
{
    let pieces = pieces(alloc, word)?;
    Ok(output_of_pieces(pieces.as_slice()))
}

/// The place of the location of this name among all of a program.
fn place_in(name: &str, p: &Program) -> Option<usize>
    requires { IsWellFormed p.now }
    ensures { Decodes (location_name (p.now.na ++ p.now.atomic)) (λ i. i < length (p.now.na ++ p.now.atomic)) name.now result }
{
    match location(name, p.na.as_slice()) {
        Some(x) => Some(x as usize),
        None => match location(name, p.atomic.as_slice()) {
            Some(y) => Some(p.na.len() + y as usize),
            None => None,
        },
    }
}

/// The place of the location of this name among those that may be named.
fn place(name: &str, p: &Program, finals: bool) -> Option<usize>
    requires { IsWellFormed p.now }
    ensures { Decodes (location_name (named_locations finals p.now)) (λ i. i < length (named_locations finals p.now)) name.now result }
{
    if finals { place_in(name, p) } else { None }
}

/// The last value of the location of a name.
fn last_of(name: &str, v: &str, p: &Program, finals: bool) -> Option<LastValue>
    requires { IsWellFormed p.now }
    ensures { MatchOption result ((l : LastValue) → FitsLast (named_locations finals p.now) l → name.now ≡ location_name (named_locations finals p.now) l.place → v.now ≡ value_word l.value → ⊥)
        (λ l. FitsLast (named_locations finals p.now) l × (name.now ≡ location_name (named_locations finals p.now) l.place) × (v.now ≡ value_word l.value)) }
{
    let place = place(name, p, finals)?;
    let value = value(v)?;
    Some(LastValue { place, value })
}

/// The first three pieces between signs `=`, which tell a last value from a word with more of them.
fn pieces_of_last<'a>(alloc: Global, word: &'a str) -> Result<Vec<&'a str>, AllocError>
    ensures { IfOk result (λ v. map (λ x. x.now) v.items ≡ take 3 (slice_split (λ b. b == 61) word.entry.now)) }
{
    word.split('=').take(3).collect(alloc)
}

/// The last value of the pieces of a word.
fn last_of_pieces(pieces: &[&str], p: &Program, finals: bool) -> Option<LastValue>
    requires { IsWellFormed p.now }
    ensures { Decodes (λ l. location_name (named_locations finals p.now) l.place ∷ (value_word l.value ∷ [])) (FitsLast (named_locations finals p.now)) (map (λ x. x.now) pieces.now) result }
{
    match pieces {
        [name, value] => last_of(name, value, p, finals),
        _ => None,
    }
}

/// The last value that the word is.
fn last(
    alloc: Global,
    word: &str,
    p: &Program,
    finals: bool,
) -> Result<Option<LastValue>, AllocError>
    requires { IsWellFormed p.now }
    ensures { IfOk result (λ o. Decodes (last_word (named_locations finals p.now)) (FitsLast (named_locations finals p.now)) word.now o) }
{
    let pieces = pieces_of_last(alloc, word)?;
    Ok(last_of_pieces(pieces.as_slice(), p, finals))
}

/// The output or the last value that the word is.
fn expected_word(
    alloc: Global,
    word: &str,
    p: &Program,
    finals: bool,
) -> Result<Option<ExpectedWord>, AllocError>
    requires { IsWellFormed p.now }
    ensures { IfOk result (λ o. Decodes (expected_word (named_locations finals p.now)) (FitsWord (named_locations finals p.now)) word.now o) }
{
    match output(alloc, word)? {
        Some(output) => Ok(Some(ExpectedWord::Output { output })),
        None => match last(alloc, word, p, finals)? {
            Some(last) => Ok(Some(ExpectedWord::Last { last })),
            None => Ok(None),
        },
    }
}

/// What the words are.
fn expected_words(
    alloc: Global,
    words: &[&str],
    p: &Program,
    finals: bool,
) -> Result<Option<Vec<ExpectedWord>>, AllocError>
    requires { IsWellFormed p.now }
    ensures { IfOk result (λ o. MatchOption o ((xs : List ExpectedWord) → All (FitsWord (named_locations finals p.now)) xs → map (λ w. w.now) words.now ≡ map (expected_word (named_locations finals p.now)) xs → ⊥)
        (λ v. All (FitsWord (named_locations finals p.now)) v.items × (map (λ w. w.now) words.now ≡ map (expected_word (named_locations finals p.now)) v.items))) }
{
    let mut read = Vec::new(alloc);
    for word in words {
        let found = expected_word(alloc, word, p, finals)?;
        match found {
            Some(x) => read.push(x)?,
            None => return Ok(None),
        }
    }
    Ok(Some(read))
}

/// The expectation of a kind with these words.
fn of_kind(
    alloc: Global,
    some: bool,
    words: &[&str],
    p: &Program,
    finals: bool,
) -> Result<Option<Expectation>, AllocError>
    requires { IsWellFormed p.now }
    ensures { IfOk result (λ o. Decodes (expectation_words (named_locations finals p.now)) (FitsExpectation (named_locations finals p.now)) (expectation_kind some ∷ map (λ w. w.now) words.now) o) }
{
    match expected_words(alloc, words, p, finals)? {
        Some(words) => Ok(Some(Expectation { some, words })),
        None => Ok(None),
    }
}

/// The expectation of these words.
fn of_words(
    alloc: Global,
    words: &[&str],
    p: &Program,
    finals: bool,
) -> Result<Option<Expectation>, AllocError>
    requires { IsWellFormed p.now }
    ensures { IfOk result (λ o. Decodes (expectation_words (named_locations finals p.now)) (FitsExpectation (named_locations finals p.now)) (map (λ w. w.now) words.now) o) }
{
    match words {
        [first, rest @ ..] => match kind(first) {
            Some(some) => of_kind(alloc, some, rest, p, finals),
            None => Ok(None),
        },
        [] => Ok(None),
    }
}

/// The words of a line, which are its pieces between blanks.
fn words<'a>(alloc: Global, line: &'a str) -> Result<Vec<&'a str>, AllocError>
    ensures { IfOk result (λ v. map (λ x. x.now) v.items ≡ slice_split (λ b. b == 32) line.entry.now) }
{
    line.split(' ').collect(alloc)
}

/// The expectation of a line of characters.
fn expectation_of_text(
    alloc: Global,
    line: &str,
    p: &Program,
    finals: bool,
) -> Result<Option<Expectation>, AllocError>
    requires { IsWellFormed p.now }
    ensures { IfOk result (λ o. Decodes (expectation_line (named_locations finals p.now)) (FitsExpectation (named_locations finals p.now)) line.now o) }
{
    let words = words(alloc, line)?;
    of_words(alloc, words.as_slice(), p, finals)
}

/// The expectation that is written as the line, with no newline. It may name last values of the program's locations where `finals`
/// says so.
pub(crate) fn expectation_of_line(
    alloc: Global,
    line: &[u8],
    p: &Program,
    finals: bool,
) -> Result<Option<Expectation>, AllocError>
    requires { IsWellFormed p.now }
    ensures { IfOk result (λ o. Decodes (expectation_line (named_locations finals p.now)) (FitsExpectation (named_locations finals p.now)) line.now o) }
{
    match str::from_utf8(line) {
        Ok(line) => expectation_of_text(alloc, line, p, finals),
        Err(_) => Ok(None),
    }
}
