//! Words of the language, as an option gives one.
ghost use Rattle.std.specs.Prelude.{◌≡◌, List, ℕ, MatchResult};
ghost use Rattle.std.specs.List.{list_all};
ghost use Rattle.il_syntax.specs.Name.{begins_with_letter, is_word, is_word_byte};
ghost use Rattle.words.specs.Meaning.{IsWordOf};

use crate::command::WordsFault;
use il_syntax::{Name, is_letter, is_word_byte};
use sqlite_items::Items;
use std::alloc::Global;

fn begins_with_letter(text: &[u8]) -> bool
    ensures { result ≡ begins_with_letter text.now }
{
    match text {
        [] => false,
        [b, ..] => is_letter(*b),
    }
}

fn are_word_bytes(text: &[u8]) -> bool
    ensures { result ≡ list_all is_word_byte text.now }
{
    text.iter().all(|b| is_word_byte(*b))
}

/// Whether a text is a word of the language, a reserved one or a name of any length.
fn is_word(text: &[u8]) -> bool
    ensures { result ≡ is_word text.now }
{
    begins_with_letter(text) && are_word_bytes(text)
}

/// The text, where it is a word of the language.
pub(crate) fn word(alloc: Global, text: &str) -> Result<Name, WordsFault>
    ensures { MatchResult result (λ w. IsWordOf text.now w)
        (λ e. e ≡ WordsFault.Refused → (w : List ℕ) → IsWordOf text.now w → ⊥) }
{
    let text = text.as_bytes();
    if !is_word(text) {
        return Err(WordsFault::Refused);
    }
    Ok(Items::from_slice(alloc, text)?)
}
