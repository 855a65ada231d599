//! The longest token at the front of some bytes.

ghost use Rattle.std.specs.Prelude.{◌≡◌, ◌+◌, ◌<◌, ◌≤◌, ℕ, length, IfSome};
ghost use Rattle.std.specs.List.{prefix_len};
ghost use Rattle.il_syntax.specs.Name.{is_letter, is_digit, is_word_byte};
ghost use Rattle.il_lexer.specs.Lexeme.{is_single, is_double, single_of, symbol_of, lexeme_of};

use crate::token::TokenKind;
use il_syntax::{is_digit, is_letter, is_word_byte};

fn word_len(bytes: &[u8]) -> usize
    ensures exact { result ≡ prefix_len is_word_byte bytes.now }
    ensures within { result ≤ length bytes.now }
{
    bytes.iter().take_while(|b| is_word_byte(**b)).count()
}

fn digits_len(bytes: &[u8]) -> usize
    ensures exact { result ≡ prefix_len is_digit bytes.now }
    ensures within { result ≤ length bytes.now }
{
    bytes.iter().take_while(|b| is_digit(**b)).count()
}

fn is_single(byte: u8) -> bool
    ensures { result ≡ is_single byte }
{
    matches!(
        byte,
        b'(' | b')'
            | b'{'
            | b'}'
            | b','
            | b';'
            | b'='
            | b'+'
            | b'-'
            | b'*'
            | b'/'
            | b'%'
            | b'&'
            | b'|'
            | b'^'
            | b'<'
    )
}

fn is_double(first: u8, second: u8) -> bool
    ensures { result ≡ is_double first second }
{
    second == b'=' && (first == b'=' || first == b'!' || first == b'<')
}

fn single(byte: u8) -> Option<(TokenKind, usize)>
    ensures { result ≡ single_of byte }
{
    is_single(byte).then_some((TokenKind::Symbol, 1))
}

fn symbol(first: u8, rest: &[u8]) -> Option<(TokenKind, usize)>
    ensures { result ≡ symbol_of first rest.now }
{
    match rest {
        [second, ..] if is_double(first, *second) => Some((TokenKind::Symbol, 2)),
        _ => single(first),
    }
}

/// The longest token that begins here, and its length.
#[tactic(auto, unfolding(crate::specs::Lexeme::lexeme_of))]
pub fn lexeme(bytes: &[u8]) -> Option<(TokenKind, usize)>
    ensures exact { result ≡ lexeme_of bytes.now }
    ensures some { IfSome result (λ x. 0 < x.1) }
    ensures within { IfSome result (λ x. x.1 ≤ length bytes.now) }
{
    match bytes {
        [] => None,
        [first, rest @ ..] => {
            if is_letter(*first) {
                Some((TokenKind::Word, word_len(rest) + 1))
            } else if is_digit(*first) {
                Some((TokenKind::Number, digits_len(rest) + 1))
            } else {
                symbol(*first, rest)
            }
        }
    }
}
