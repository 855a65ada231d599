//! The tokens of a text: words, numbers and symbols, each the longest that begins where it stands
//! (the longest match, or "maximal munch"), with blanks and comments between them.
//!
//! A text has the bytes 9, 10, 13 and 32 to 126. Blanks are 9, 10, 13 and 32. A comment runs from a
//! `#` up to the next byte 10, or to the end. A word is a letter or `_` followed by letters, digits
//! and `_`. A number is one or more digits. The symbols are
//! `( ) { } , ; = + - * / % & | ^ == != < <=`.
//!
//! Read first `specs/Lexeme.antt`, with what a token is spelled with, then `specs/Text.antt`, with the
//! tokens of a text and what lies between them.
#![tactic(auto)]

mod fault;
mod laws;
mod lexeme;
mod place;
mod scanner;
mod token;

pub use fault::LexFault;
pub use laws::{
    each_text_lexes, layout_lexes_to_its_tokens, no_token_is_empty, one_reading,
    tokens_are_the_text,
};
pub use place::{column, line};
pub use scanner::{Lexed, foreign_byte, lex, scan};
pub use token::{Token, TokenKind, Tokens};
