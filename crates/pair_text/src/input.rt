//! From the bytes of an input to its two programs.

ghost use Rattle.std.specs.Prelude.{◌≡◌, ◌≤◌, ◌<◌, ◌+◌, ◌-◌, ◌^◌, length, IfOk, IfErr, MatchResult};
ghost use Rattle.text_parts.specs.Lines.{newlines};
ghost use Rattle.il_syntax.specs.WellFormed.{IsWellFormed};
ghost use Rattle.il_syntax.specs.declared.program.Program.{Program};
ghost use Rattle.il_grammar.specs.declared.rule.Rule.{Rule};
ghost use Rattle.il_reader.specs.Refusal.{Refusal, IfRefused, after_lines, fault_map};
ghost use Rattle.pair_text.specs.Refusals.{before_target};
ghost use Rattle.pair_text.specs.Reading.{SpellTexts, IsFirstOfTexts, ReadsPair, IsFirstPairRefusal, IsTextsAnswer, IsPairAnswer};
ghost use Rattle.pair_text.specs.declared.fault.PairRule.{PairRule};

use crate::fault::{PairRule, pair_fault};
use il_parser::{InputFault, Rule, parse};
use il_syntax::Program;
use std::alloc::Global;
use text_parts::{divide_at_line, newlines};

/// A source program and one that may stand for it.
#[derive(Drop)]
pub struct ProgramPair {
    pub source: Program,
    pub target: Program,
}

/// A fault of the target's text, its lines counted from the source's first.
fn target_fault(source: &[u8], fault: InputFault<Rule>) -> InputFault<Rule>
    requires few { newlines source.now < 2 ^ 32 - 1 }
    requires small { IfRefused fault (λ r. newlines source.now + 1 + r.line < 2 ^ 32) }
    ensures { result ≡ fault_map (after_lines (newlines (before_target source.now))) fault }
{
    fault.after_lines(newlines(source) as u32 + 1)
}

/// The programs of the two texts.
fn texts(
    alloc: Global,
    source_text: &[u8],
    target_text: &[u8],
) -> Result<ProgramPair, InputFault<Rule>>
    requires { length source_text.now + length target_text.now < 2 ^ 32 - 3 }
    ensures answer { IsTextsAnswer source_text.now target_text.now result }
    ensures source { IfOk result (λ x. IsWellFormed x.source) }
    ensures target { IfOk result (λ x. IsWellFormed x.target) }
{
    let source = match parse(alloc, source_text) {
        Ok(source) => source,
        Err(fault) => return Err(fault),
    };
    match parse(alloc, target_text) {
        Ok(target) => Ok(ProgramPair { source, target }),
        Err(fault) => Err(target_fault(source_text, fault)),
    }
}

/// The programs of two texts that stand in one input with the line `target` between them.
///
/// # Errors
/// The source's first refusal, or else the target's, with its lines counted from the source's first.
pub fn read_texts(
    alloc: Global,
    source_text: &[u8],
    target_text: &[u8],
) -> Result<ProgramPair, InputFault<Rule>>
    requires { length source_text.now + length target_text.now < 2 ^ 32 - 3 }
    // What is answered is what the texts spell; a refusal that is answered is the first.
    ensures ok { IfOk result (λ x. SpellTexts source_text.now target_text.now x.source x.target) }
    ensures source { IfOk result (λ x. IsWellFormed x.source) }
    ensures target { IfOk result (λ x. IsWellFormed x.target) }
    ensures refused { IfErr result (λ e. IfRefused e (λ r. IsFirstOfTexts source_text.now target_text.now r)) }
    // What the texts spell is answered, and so is their first refusal, unless memory runs out.
    ensures only { (p q : Program) → SpellTexts source_text.now target_text.now p q → MatchResult result (λ x. (x.source ≡ p) × (x.target ≡ q)) (λ e. e ≡ InputFault.NoMemory) }
    ensures exact { (r : Refusal Rule) → IsFirstOfTexts source_text.now target_text.now r → MatchResult result (λ _. ⊥) (λ e. IfRefused e (λ q. q ≡ r)) }
{
    texts(alloc, source_text, target_text)
}

/// The pair of an input.
fn pair(alloc: Global, input: &[u8]) -> Result<ProgramPair, InputFault<PairRule>>
    requires { length input.now < 2 ^ 32 - 1 }
    ensures answer { IsPairAnswer input.now result }
    ensures source { IfOk result (λ x. IsWellFormed x.source) }
    ensures target { IfOk result (λ x. IsWellFormed x.target) }
{
    let Some((source_text, target_text)) = divide_at_line(input, b"target".as_slice()) else {
        return Err(InputFault::at_line(PairRule::T, 1));
    };
    match texts(alloc, source_text, target_text) {
        Ok(pair) => Ok(pair),
        Err(fault) => Err(pair_fault(fault)),
    }
}

/// What an input reads as, of fewer than 2^32 - 1 bytes, or its first refusal. The text of the source
/// comes first, up to the first line that is exactly `target`; the text of the target comes after
/// that line.
///
/// # Errors
/// `T` is refused in line 1 where the line `target` is missing. The source's first refusal comes next,
/// and then the target's, with lines counted over the whole input.
pub fn read_pair(alloc: Global, input: &[u8]) -> Result<ProgramPair, InputFault<PairRule>>
    requires { length input.now < 2 ^ 32 - 1 }
    // What is answered is what the input reads as; a refusal that is answered is the first.
    ensures ok { IfOk result (λ x. ReadsPair input.now x.source x.target) }
    ensures source { IfOk result (λ x. IsWellFormed x.source) }
    ensures target { IfOk result (λ x. IsWellFormed x.target) }
    ensures refused { IfErr result (λ e. IfRefused e (λ r. IsFirstPairRefusal input.now r)) }
    // What the input reads as is answered, and so is its first refusal, unless memory runs out.
    ensures only { (p q : Program) → ReadsPair input.now p q → MatchResult result (λ x. (x.source ≡ p) × (x.target ≡ q)) (λ e. e ≡ InputFault.NoMemory) }
    ensures exact { (r : Refusal PairRule) → IsFirstPairRefusal input.now r → MatchResult result (λ _. ⊥) (λ e. IfRefused e (λ q. q ≡ r)) }
{
    pair(alloc, input)
}
