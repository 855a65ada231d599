//! What the grammar sees of the tokens.

ghost use Rattle.std.specs.Prelude.{◌≡◌, ◌+◌, ◌≤◌, ◌-◌, ◌^◌, ◌∷◌, ◌++◌, map, min, length, slice_range, IfOk, None, Some, MatchOption};
ghost use Rattle.std.specs.Prelude.{◌||◌, codes, true};
ghost use Rattle.std.specs.Str.{bytes_eq};
ghost use Rattle.std.specs.List.{All};
ghost use Rattle.il_lexer.specs.Text.{rest_of};
ghost use Rattle.il_reader.specs.Terminals.{digits_value, number_value, word_of, other_word_of, operator_of, symbol_terminal, IsWithinText, terminal_of, terminals_of, after_header, has_fences, as_fence_order, is_name_with, is_fence_word, text_of};

use il_grammar::{Span, Terminal};
use il_lexer::{Token, TokenKind};
use std::alloc::{AllocError, Global};
use values_undef::{Op, Order};

/// The value of some digits, or the greatest number where it is greater.
fn number(digits: &[u8]) -> u64
    ensures { result ≡ number_value digits.now }
{
    let mut value: u64 = 0;
    for digit in digits {
        value = value
            .saturating_mul(10)
            .saturating_add(u64::from(digit.saturating_sub(b'0')));
    }
    value
}

/// A word that is none of the first ten.
fn other_word(text: &[u8], span: Span) -> Terminal<Span>
    ensures { result ≡ other_word_of text.now span }
{
    if text == b"rlx".as_slice() {
        Terminal::OrderWord(Order::Rlx, span)
    } else if text == b"acq".as_slice() {
        Terminal::OrderWord(Order::Acq, span)
    } else if text == b"rel".as_slice() {
        Terminal::OrderWord(Order::Rel, span)
    } else if text == b"acqrel".as_slice() {
        Terminal::OrderWord(Order::AcqRel, span)
    } else if text == b"add".as_slice() {
        Terminal::Add
    } else if text == b"swap".as_slice() {
        Terminal::Swap
    } else if text == b"cas".as_slice() {
        Terminal::Cas
    } else if text == b"print".as_slice() {
        Terminal::Print(span)
    } else if text == b"if".as_slice() {
        Terminal::If(span)
    } else if text == b"else".as_slice() {
        Terminal::Else
    } else if text == b"while".as_slice() {
        Terminal::While(span)
    } else if text == b"call".as_slice() {
        Terminal::Call
    } else if text == b"undef".as_slice() {
        Terminal::Unknown
    } else {
        Terminal::Name(span)
    }
}

fn word(text: &[u8], span: Span) -> Terminal<Span>
    ensures { result ≡ word_of text.now span }
{
    if text == b"il".as_slice() {
        Terminal::Il
    } else if text == b"na".as_slice() {
        Terminal::Na
    } else if text == b"atomic".as_slice() {
        Terminal::Atomic
    } else if text == b"fn".as_slice() {
        Terminal::Fn
    } else if text == b"reg".as_slice() {
        Terminal::Reg
    } else if text == b"return".as_slice() {
        Terminal::Return
    } else if text == b"thread".as_slice() {
        Terminal::Thread(span)
    } else if text == b"skip".as_slice() {
        Terminal::Skip(span)
    } else if text == b"load".as_slice() {
        Terminal::Load
    } else if text == b"store".as_slice() {
        Terminal::Store(span)
    } else {
        other_word(text, span)
    }
}

fn operator(text: &[u8]) -> Terminal<Span>
    ensures { result ≡ operator_of text.now }
{
    if text == b"+".as_slice() {
        Terminal::Operator(Op::Add)
    } else if text == b"-".as_slice() {
        Terminal::Operator(Op::Sub)
    } else if text == b"*".as_slice() {
        Terminal::Operator(Op::Mul)
    } else if text == b"/".as_slice() {
        Terminal::Operator(Op::Div)
    } else if text == b"%".as_slice() {
        Terminal::Operator(Op::Rem)
    } else if text == b"&".as_slice() {
        Terminal::Operator(Op::And)
    } else if text == b"|".as_slice() {
        Terminal::Operator(Op::Or)
    } else if text == b"^".as_slice() {
        Terminal::Operator(Op::Xor)
    } else if text == b"==".as_slice() {
        Terminal::Operator(Op::Eq)
    } else if text == b"!=".as_slice() {
        Terminal::Operator(Op::Ne)
    } else if text == b"<".as_slice() {
        Terminal::Operator(Op::Lt)
    } else if text == b"<=".as_slice() {
        Terminal::Operator(Op::Le)
    } else {
        Terminal::Unknown
    }
}

fn symbol(text: &[u8]) -> Terminal<Span>
    ensures { result ≡ symbol_terminal text.now }
{
    if text == b"(".as_slice() {
        Terminal::LeftParen
    } else if text == b")".as_slice() {
        Terminal::RightParen
    } else if text == b"{".as_slice() {
        Terminal::Open
    } else if text == b"}".as_slice() {
        Terminal::Close
    } else if text == b",".as_slice() {
        Terminal::Comma
    } else if text == b";".as_slice() {
        Terminal::Semicolon
    } else if text == b"=".as_slice() {
        Terminal::Equals
    } else {
        operator(text)
    }
}

/// The bytes of a token.
fn text_of(bytes: &[u8], token: Token) -> &[u8]
    requires { IsWithinText bytes.now token }
    ensures { result.now ≡ text_of bytes.now token }
{
    &bytes[token.start as usize..token.end as usize]
}

fn terminal(bytes: &[u8], token: Token) -> Terminal<Span>
    requires { IsWithinText bytes.now token }
    ensures { result ≡ terminal_of bytes.now token }
{
    let text = text_of(bytes, token);
    match token.kind {
        TokenKind::Word => word(
            text,
            Span {
                start: token.start,
                end: token.end,
            },
        ),
        TokenKind::Number => Terminal::Number(number(text)),
        TokenKind::Symbol => symbol(text),
    }
}

/// An order of a fence, where a fence may be.
fn as_fence_order(behind: bool, terminal: Terminal<Span>) -> Terminal<Span>
    ensures { result ≡ as_fence_order behind terminal }
{
    match terminal {
        Terminal::OrderWord(order, word) => {
            if behind && order.is_fence_order() {
                Terminal::FenceOrder(order, word)
            } else {
                terminal
            }
        }
        _ => terminal,
    }
}

/// Whether the terminal of this token is the name `fence`, in a text that may have fences.
#[tactic(auto, using(crate::proofs::Places::name_of_token))]
fn is_fence_name(bytes: &[u8], fences: bool, token: Token, terminal: Terminal<Span>) -> bool
    requires within { IsWithinText bytes.now token }
    requires terminal { terminal ≡ terminal_of bytes.now token }
    ensures { result ≡ is_name_with (is_fence_word bytes.now fences) terminal }
{
    match terminal {
        Terminal::Name(_) => fences && text_of(bytes, token) == b"fence".as_slice(),
        _ => false,
    }
}

/// The terminals of a text with a header and these tokens after it, which may have fences or not.
#[tactic(auto, using(crate::proofs::Fences::more_terminals, crate::proofs::Fences::more_behind))]
pub fn terminals(
    alloc: Global,
    bytes: &[u8],
    fences: bool,
    rest: &[Token],
    unknown: Option<u32>,
) -> Result<Vec<Terminal<Span>>, AllocError>
    requires { All (IsWithinText bytes.now) rest.now }
    ensures { IfOk result (λ v. v.items ≡ terminals_of bytes.now fences rest.now (rest_of unknown)) }
{
    let mut terminals = Vec::new(alloc);
    terminals.push(Terminal::Il)?;
    terminals.push(Terminal::Version)?;
    let mut behind = false;
    for token in rest {
        let terminal = terminal(bytes, *token);
        terminals.push(as_fence_order(behind, terminal))?;
        behind = is_fence_name(bytes, fences, *token, terminal);
    }
    match unknown {
        None => Ok(terminals),
        Some(_) => {
            terminals.push(Terminal::Unknown)?;
            Ok(terminals)
        }
    }
}

/// Whether it is the version of a header.
fn is_version(text: &[u8]) -> bool
    ensures { result ≡ (bytes_eq text.now (codes "1") || bytes_eq text.now (codes "2")) }
{
    text == b"1".as_slice() || text == b"2".as_slice()
}

/// Whether the header is that of texts that may have fences.
pub fn has_fences(bytes: &[u8], tokens: &[Token]) -> bool
    requires { All (IsWithinText bytes.now) tokens.now }
    ensures { result ≡ has_fences bytes.now tokens.now }
{
    match tokens {
        [_, second, ..] => text_of(bytes, *second) == b"2".as_slice(),
        _ => false,
    }
}

/// The tokens after the header, where the text begins with it.
pub fn after_header<'a>(bytes: &[u8], tokens: &'a [Token]) -> Option<&'a [Token]>
    requires { All (IsWithinText bytes.now) tokens.now }
    ensures { MatchOption result (after_header bytes.now tokens.now ≡ None) (λ rest. after_header bytes.now tokens.now ≡ Some rest.now) }
{
    match tokens {
        [first, second, rest @ ..]
            if text_of(bytes, *first) == b"il".as_slice() && is_version(text_of(bytes, *second)) =>
            Some(rest),
        _ => None,
    }
}
