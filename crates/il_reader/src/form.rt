//! From bytes to the text as it is written.

ghost use Rattle.std.specs.Prelude.{◌≡◌, ◌≤◌, ◌<◌, ◌-◌, ◌^◌, length, None, Some, Result, Ok, Err, IfOk, IfErr, MatchResult};
ghost use Rattle.std.specs.List.{position, All};
ghost use Rattle.il_lexer.specs.Text.{is_foreign, Lexes, rest_of};
ghost use Rattle.il_grammar.specs.declared.rule.Rule.{Rule};
ghost use Rattle.il_grammar.specs.declared.syntax.Span.{Span};
ghost use Rattle.il_grammar.specs.Grammar.{TextTree};
ghost use Rattle.il_grammar.specs.Reading.{text_tree_of};
ghost use Rattle.il_reader.specs.Refusal.{Refusal, IfRefused};
ghost use Rattle.il_reader.specs.Terminals.{IsWithinText, after_header};
ghost use Rattle.il_reader.specs.Text.{Writes, IsFormRefusal, IsAnswer};

use crate::fault::{InputFault, refused_at};
use crate::place::{count, place};
use crate::terminal::{after_header, has_fences, terminals};
use il_grammar::{RawText, Rule, read};
use il_lexer::{Lexed, Token, foreign_byte, scan};
use std::alloc::Global;
use token_machine::ReadError;

/// A text with a header, or its first fault.
fn after_its_header(
    alloc: Global,
    bytes: &[u8],
    lexed: &Lexed,
    rest: &[Token],
) -> Result<RawText, InputFault<Rule>>
    requires pure { position is_foreign bytes.now ≡ None }
    requires lexed { Lexes 0 bytes.now lexed.now.tokens (rest_of lexed.now.unknown) }
    requires headed { after_header bytes.now lexed.now.tokens ≡ Some rest.now }
    requires small { length bytes.now < 2 ^ 32 - 1 }
    ensures { IsAnswer bytes.now result }
{
    let fences = has_fences(bytes, lexed.tokens.as_slice());
    let terminals = terminals(alloc, bytes, fences, rest, lexed.unknown)?;
    match read(alloc, &terminals) {
        Ok(text) => Ok(text),
        Err(ReadError::NoMemory) => Err(InputFault::NoMemory),
        Err(ReadError::Fault(fault)) => {
            let at = place(bytes, lexed, count(lexed).saturating_sub(fault.left));
            Err(refused_at(bytes, fault.rule, at))
        }
    }
}

fn headless(bytes: &[u8], lexed: &Lexed) -> InputFault<Rule>
    requires pure { position is_foreign bytes.now ≡ None }
    requires lexed { Lexes 0 bytes.now lexed.now.tokens (rest_of lexed.now.unknown) }
    requires headless { after_header bytes.now lexed.now.tokens ≡ None }
    requires small { length bytes.now < 2 ^ 32 - 1 }
    ensures { IfRefused result (λ r. IsFormRefusal bytes.now r) }
{
    refused_at(bytes, Rule::P2, place(bytes, lexed, 0))
}

fn pure_text(alloc: Global, bytes: &[u8]) -> Result<RawText, InputFault<Rule>>
    requires pure { position is_foreign bytes.now ≡ None }
    requires small { length bytes.now < 2 ^ 32 - 1 }
    ensures { IsAnswer bytes.now result }
{
    let lexed = scan(alloc, bytes)?;
    match after_header(bytes, lexed.tokens.as_slice()) {
        Some(rest) => after_its_header(alloc, bytes, &lexed, rest),
        None => Err(headless(bytes, &lexed)),
    }
}

fn text(alloc: Global, bytes: &[u8]) -> Result<RawText, InputFault<Rule>>
    requires { length bytes.now < 2 ^ 32 - 1 }
    ensures { IsAnswer bytes.now result }
{
    match foreign_byte(bytes) {
        Some(at) => Err(refused_at(bytes, Rule::P1, at)),
        None => pure_text(alloc, bytes),
    }
}

/// The text as it is written, which is shorter than 2^32 - 1 bytes.
///
/// # Errors
/// The first refusal of its form: `P1`, else `P2`, else the first of `P3` to `P5`.
pub fn read_text(alloc: Global, bytes: &[u8]) -> Result<RawText, InputFault<Rule>>
    requires { length bytes.now < 2 ^ 32 - 1 }
    // What is answered is written, and a refusal that is answered is the first of form.
    ensures ok { IfOk result (λ x. Writes bytes.now (text_tree_of x)) }
    ensures refused { IfErr result (λ e. IfRefused e (λ r. IsFormRefusal bytes.now r)) }
    // What is written is answered, and so is the first refusal, unless memory runs out.
    ensures only { (tree : TextTree Span) → Writes bytes.now tree → MatchResult result (λ x. text_tree_of x ≡ tree) (λ e. e ≡ InputFault.NoMemory) }
    ensures exact { (r : Refusal Rule) → IsFormRefusal bytes.now r → MatchResult result (λ _. ⊥) (λ e. IfRefused e (λ q. q ≡ r)) }
{
    text(alloc, bytes)
}
