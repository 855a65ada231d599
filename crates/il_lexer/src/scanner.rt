//! All tokens of a text.

ghost use Rattle.std.specs.Prelude.{◌≡◌, ◌≢◌, ◌+◌, ◌^◌, ◌<◌, ◌≤◌, ◌↔◌, ◌⊎◌, ℕ, List, length, drop, false, Ok, Err, None, Some, IfOk, IfSome, MatchResult, slice_index};
ghost use Rattle.std.specs.List.{prefix_len, position};
ghost use Rattle.il_lexer.specs.declared.token.Token.{Token};
ghost use Rattle.il_lexer.specs.Text.{is_foreign, is_blank, in_line, Rest, at_end, stopped_at, Lexes, rest_of};

use crate::fault::LexFault;
use crate::lexeme::lexeme;
use crate::token::{Token, Tokens};
use std::alloc::Global;
use values_undef::NoMemory;

/// The tokens of a text, and the first byte that begins none, if there is one.
#[derive(Drop)]
pub struct Lexed {
    pub tokens: Tokens,
    pub unknown: Option<u32>,
}

fn is_foreign(byte: u8) -> bool
    ensures { result ≡ is_foreign byte }
{
    !(byte == b'\t' || byte == b'\n' || byte == b'\r' || (byte >= b' ' && byte <= b'~'))
}

fn is_blank(byte: u8) -> bool
    ensures { result ≡ is_blank byte }
{
    byte == b' ' || byte == b'\n' || byte == b'\t' || byte == b'\r'
}

fn in_line(byte: u8) -> bool
    ensures { result ≡ in_line byte }
{
    byte != b'\n'
}

/// How many bytes the line has left.
fn line_len(bytes: &[u8]) -> usize
    ensures exact { result ≡ prefix_len in_line bytes.now }
    ensures within { result ≤ length bytes.now }
{
    bytes.iter().take_while(|b| in_line(**b)).count()
}

/// The bytes from a place on.
fn after(bytes: &[u8], from: usize) -> &[u8]
    requires { from ≤ length bytes.now }
    ensures value { result.now ≡ drop from bytes.now }
    ensures len { length result.now + from ≡ length bytes.now }
{
    &bytes[from..]
}

/// The first place from here on that is in no blank and no comment.
fn skip_blanks(bytes: &[u8], from: usize) -> usize
    requires { from ≤ length bytes.now }
    ensures passed { (ts : List Token) (rest : Rest) → Lexes result (drop result bytes.now) ts rest → Lexes from (drop from bytes.now) ts rest }
    ensures after { from ≤ result }
    ensures within { result ≤ length bytes.now }
    ensures blank { result < length bytes.now → is_blank (slice_index bytes.now result) ≡ false }
    ensures comment { result < length bytes.now → slice_index bytes.now result ≢ 35 }
{
    let mut at = from;
    while at < bytes.len() {
        let byte = bytes[at];
        if byte == b'#' {
            at = at + 1 + line_len(after(bytes, at + 1));
        } else if is_blank(byte) {
            at += 1;
        } else {
            return at;
        }
    }
    at
}

/// The tokens of a text, and where they stop.
fn read_tokens(alloc: Global, bytes: &[u8]) -> Result<Lexed, NoMemory>
    requires { length bytes.now < 2 ^ 32 }
    ensures { IfOk result (λ x. Lexes 0 bytes.now x.tokens (rest_of x.unknown)) }
{
    let mut tokens = Vec::new(alloc);
    let mut at = skip_blanks(bytes, 0);
    while at < bytes.len() {
        let Some((kind, len)) = lexeme(after(bytes, at)) else {
            return Ok(Lexed {
                tokens: Tokens { tokens },
                unknown: Some(at as u32),
            });
        };
        let end = at + len;
        tokens.push(Token {
            kind,
            start: at as u32,
            end: end as u32,
        })?;
        at = skip_blanks(bytes, end);
    }
    Ok(Lexed {
        tokens: Tokens { tokens },
        unknown: None,
    })
}

fn foreign_index(bytes: &[u8]) -> Option<usize>
    ensures exact { result ≡ position is_foreign bytes.now }
    ensures within { IfSome result (λ at. at < length bytes.now) }
{
    bytes.iter().position(|b| is_foreign(*b))
}

/// The place of the first byte that no text has, in a comment either. It takes no memory. The text
/// is shorter than 2^32 bytes.
pub fn foreign_byte(bytes: &[u8]) -> Option<u32>
    requires { length bytes.now < 2 ^ 32 }
    ensures exact { result ≡ position is_foreign bytes.now }
    ensures within { IfSome result (λ at. at < length bytes.now) }
{
    foreign_index(bytes).map(|at| at as u32)
}

/// The tokens up to the first byte that begins none, whatever other bytes the text has: for a
/// reader that has to look at the tokens before that byte. The text is shorter than 2^32 bytes.
pub fn scan(alloc: Global, bytes: &[u8]) -> Result<Lexed, NoMemory>
    requires { length bytes.now < 2 ^ 32 }
    // What is answered are the text's tokens.
    ensures found { IfOk result (λ x. Lexes 0 bytes.now x.tokens (rest_of x.unknown)) }
    // The text's tokens are answered, unless memory runs out.
    ensures only { (ts : List Token) (rest : Rest) → Lexes 0 bytes.now ts rest → IfOk result (λ x. (x.tokens ≡ ts) × (rest_of x.unknown ≡ rest)) }
{
    read_tokens(alloc, bytes)
}

/// The tokens of a text, which is shorter than 2^32 bytes.
///
/// # Errors
/// `Byte` is answered first, exactly where a byte stands that no text has, and takes no memory.
/// `Unknown` is answered exactly where a byte begins no token, unless memory runs out before it.
pub fn lex(alloc: Global, bytes: &[u8]) -> Result<Tokens, LexFault>
    requires { length bytes.now < 2 ^ 32 }
    ensures byte { (at : ℕ) → (result ≡ Err (LexFault.Byte at)) ↔ (position is_foreign bytes.now ≡ Some at) }
    ensures ok { IfOk result (λ ts. (position is_foreign bytes.now ≡ None) × Lexes 0 bytes.now ts at_end) }
    ensures unknown { (at : ℕ) → result ≡ Err (LexFault.Unknown at) → (position is_foreign bytes.now ≡ None) × ((ts : List Token) × Lexes 0 bytes.now ts (stopped_at at)) }
    ensures only_ok { (ts : List Token) → position is_foreign bytes.now ≡ None → Lexes 0 bytes.now ts at_end → MatchResult result (λ x. x ≡ ts) (λ e. e ≡ LexFault.NoMemory) }
    ensures only_unknown { (ts : List Token) (at : ℕ) → position is_foreign bytes.now ≡ None → Lexes 0 bytes.now ts (stopped_at at) → (result ≡ Err (LexFault.Unknown at)) ⊎ (result ≡ Err LexFault.NoMemory) }
{
    if let Some(at) = foreign_byte(bytes) {
        return Err(LexFault::Byte { at });
    }
    let lexed = scan(alloc, bytes)?;
    match lexed.unknown {
        Some(at) => Err(LexFault::Unknown { at }),
        None => Ok(lexed.tokens),
    }
}
