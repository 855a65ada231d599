//! What tokens are, in the words of the text.

ghost use Rattle.std.specs.Prelude.{◌≡◌, ℕ, List, [], false};
ghost use Rattle.il_lexer.specs.declared.token.Token.{Token};
ghost use Rattle.il_lexer.specs.declared.token.TokenKind.{TokenKind};
ghost use Rattle.il_lexer.specs.Lexeme.{is_lexeme};
ghost use Rattle.il_lexer.specs.Text.{Rest, at_end, Lexes};
ghost use Rattle.il_lexer.specs.Slices.{AreTokensOf, end_of};
ghost use Rattle.il_lexer.specs.Layout.{Printed, rendered, tokens_from, IsLaidOut};

/// Tokens stand in the order of the text, each is the slice of the text from its start to its end,
/// is spelled as its kind says, and is the longest that begins there; what lies before, between and
/// after them is blanks and comments.
pub fn tokens_are_the_text()
    ensures { (bytes : List ℕ) (ts : List Token) (rest : Rest) → Lexes 0 bytes ts rest → AreTokensOf bytes 0 ts (end_of bytes rest) }
{}

/// A text has one list of tokens at most.
pub fn one_reading()
    ensures { (bytes : List ℕ) (ts us : List Token) (rest other : Rest) → Lexes 0 bytes ts rest → Lexes 0 bytes us other → (ts ≡ us) × (rest ≡ other) }
{}

/// Each text has tokens up to its end or up to a byte that begins none.
pub fn each_text_lexes()
    ensures { (bytes : List ℕ) → (ts : List Token) × (rest : Rest) × Lexes 0 bytes ts rest }
{}

/// No token is empty.
pub fn no_token_is_empty()
    ensures { (kind : TokenKind) → is_lexeme kind [] ≡ false }
{}

/// A text that is laid out from tokens that are kept apart lexes to these tokens.
pub fn layout_lexes_to_its_tokens()
    ensures { (ps : List Printed) → IsLaidOut ps → Lexes 0 (rendered ps) (tokens_from 0 ps) at_end }
{}
