//! From the bytes of an input to its program and its expectations.

ghost use Rattle.std.specs.Prelude.{◌≡◌, ◌<◌, ◌+◌, ◌-◌, ◌^◌, ℕ, List, length, IfOk, IfErr, MatchResult};
ghost use Rattle.il_syntax.specs.WellFormed.{IsWellFormed};
ghost use Rattle.il_syntax.specs.declared.program.Program.{Program};
ghost use Rattle.il_reader.specs.Refusal.{Refusal, IfRefused};
ghost use Rattle.il_parser.specs.Text.{SpellsProgram};
ghost use Rattle.litmus_text.specs.declared.fault.LitmusRule.{LitmusRule};
ghost use Rattle.litmus_text.specs.Expectation.{Expected};
ghost use Rattle.litmus_text.specs.Refusals.{expectation_line_number};
ghost use Rattle.litmus_text.specs.Reading.{DividesLitmus, ReadsLitmus, IsFirstLitmusRefusal, IsLitmusAnswer};

use crate::expectation::Expectation;
use crate::expectations::{ExpectationsFault, read_expectations};
use crate::fault::{LitmusRule, input_fault};
use il_parser::{InputFault, parse};
use il_syntax::Program;
use std::alloc::Global;
use text_parts::{divide_at_line, newlines};

/// A program, and what is expected of its outcomes.
#[derive(Drop)]
pub struct LitmusInput {
    pub program: Program,
    pub expectations: Vec<Expectation>,
}

/// The line of the expectation after so many others.
fn line_after(program_text: &[u8], lines: u32) -> u32
    requires { length program_text.now + lines < 2 ^ 32 - 14 }
    ensures { result ≡ expectation_line_number program_text.now lines }
{
    newlines(program_text) as u32 + 2 + lines
}

/// A program with the expectations of a text.
fn with_expectations(
    alloc: Global,
    program: Program,
    program_text: &[u8],
    expectations_text: &[u8],
    finals: bool,
) -> Result<LitmusInput, InputFault<LitmusRule>>
    requires program { IsWellFormed program }
    requires spelled { SpellsProgram program_text.now program }
    requires small { length program_text.now < 2 ^ 32 - 300 }
    ensures answer { (input : List ℕ) → DividesLitmus input program_text.now expectations_text.now → IsLitmusAnswer finals input result }
    ensures program { IfOk result (λ x. IsWellFormed x.program) }
{
    match read_expectations(alloc, expectations_text, &program, finals) {
        Ok(expectations) => Ok(LitmusInput {
            program,
            expectations,
        }),
        Err(ExpectationsFault::Refused { lines }) => {
            let line = line_after(program_text, lines);
            Err(InputFault::at_line(LitmusRule::X, line))
        }
        Err(ExpectationsFault::NoMemory) => Err(InputFault::NoMemory),
    }
}

/// The input of two texts.
fn texts(
    alloc: Global,
    program_text: &[u8],
    expectations_text: &[u8],
    finals: bool,
) -> Result<LitmusInput, InputFault<LitmusRule>>
    requires { length program_text.now < 2 ^ 32 - 300 }
    ensures answer { (input : List ℕ) → DividesLitmus input program_text.now expectations_text.now → IsLitmusAnswer finals input result }
    ensures program { IfOk result (λ x. IsWellFormed x.program) }
{
    match parse(alloc, program_text) {
        Ok(program) => {
            with_expectations(alloc, program, program_text, expectations_text, finals)
        }
        Err(fault) => Err(input_fault(fault)),
    }
}

/// The program and the expectations of an input.
fn read_input(
    alloc: Global,
    input: &[u8],
    finals: bool,
) -> Result<LitmusInput, InputFault<LitmusRule>>
    requires { length input.now < 2 ^ 32 - 300 }
    ensures answer { IsLitmusAnswer finals input.now result }
    ensures program { IfOk result (λ x. IsWellFormed x.program) }
{
    match divide_at_line(input, b"expect".as_slice()) {
        Some((program_text, expectations_text)) => {
            texts(alloc, program_text, expectations_text, finals)
        }
        None => texts(alloc, input, &[], finals),
    }
}

/// What an input reads as, of fewer than 2^32 - 300 bytes, or its first refusal. The text of the program comes first, up to the
/// first line that is exactly `expect`; then the expectations, at most [`crate::MOST_EXPECTATIONS`] lines of them. Where there is no
/// such line the whole input is the program's text. Where `finals` says so, expectations may name last values of locations.
///
/// # Errors
/// The program's first refusal comes first. Then rule `X` is refused at the first line that is no expectation, or that is one
/// too many. Lines are counted over the whole input.
pub fn read_litmus(
    alloc: Global,
    input: &[u8],
    finals: bool,
) -> Result<LitmusInput, InputFault<LitmusRule>>
    requires { length input.now < 2 ^ 32 - 300 }
    // What is answered is what the input reads as; a refusal that is answered is the first.
    ensures ok { IfOk result (λ x. ReadsLitmus finals input.now x.program x.expectations.items) }
    ensures program { IfOk result (λ x. IsWellFormed x.program) }
    ensures refused { IfErr result (λ e. IfRefused e (λ r. IsFirstLitmusRefusal finals input.now r)) }
    // What the input reads as is answered, and so is its first refusal, unless memory runs out.
    ensures only { (p : Program) (expectations : List Expected) → ReadsLitmus finals input.now p expectations
        → MatchResult result (λ x. (x.program ≡ p) × (x.expectations.items ≡ expectations)) (λ e. e ≡ InputFault.NoMemory) }
    ensures exact { (r : Refusal LitmusRule) → IsFirstLitmusRefusal finals input.now r → MatchResult result (λ _. ⊥) (λ e. IfRefused e (λ q. q ≡ r)) }
{
    read_input(alloc, input, finals)
}
