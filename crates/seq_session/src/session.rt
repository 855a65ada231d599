//! From an input and a name to the answer.
ghost use Rattle.std.specs.Prelude.{◌≡◌, ◌<◌, ◌≤◌, ◌+◌, ◌-◌, ◌^◌, Some, length, IfOk, IfSome};
ghost use Rattle.il_syntax.specs.WellFormed.{IsWellFormed};
ghost use Rattle.thread_core.specs.Programs.{function_at};
ghost use Rattle.validator.specs.Shape.{SameShape};
ghost use Rattle.seq_pair.specs.Laws.{IsAcceptedPair};
ghost use Rattle.seq_session.specs.Session.{function_number, IsFunctionAnswer, IsNamedAnswer, IsSeqAnswer};

use crate::answer::SeqAnswer;
use flow_summary::Summed;
use il_parser::InputFault;
use il_syntax::{Function, Program};
use seq_pair::{PairFault, seq_pair};
use seq_text::{SeqRule, Session, read_session, write_trace};
use std::alloc::Global;
use validator::{Judged, same_shape, validate};
use values_undef::NoMemory;

/// The number of the function of a name.
fn function_number(functions: &[Function], name: &[u8]) -> Option<usize>
    ensures exact { result ≡ function_number functions.now name.now }
    ensures within { IfSome result (λ f. f < length functions.now) }
{
    functions.iter().position(|f| f.name.as_slice() == name)
}

/// The function of this number.
fn function_of(p: &Program, function: usize) -> &Function
    requires { function < length p.now.functions }
    ensures { function_at p.now function ≡ Some result.now }
{
    &p.functions.as_slice()[function]
}

/// What is answered of an accepted function.
fn played(alloc: Global, session: &Session, function: u32) -> Result<SeqAnswer, NoMemory>
    requires accepted { IsAcceptedPair session.now.source session.now.target function }
    requires few { length session.now.events.items < 2 ^ 32 }
    requires lines { session.now.first_line + length session.now.events.items < 2 ^ 32 }
    ensures { IfOk result (λ a. IsFunctionAnswer session.now.source session.now.target function session.now.events.items session.now.first_line a) }
{
    let events = session.events.as_slice();
    match seq_pair(alloc, &session.source, &session.target, function, events) {
        Ok(trace) => Ok(SeqAnswer::Played {
            text: write_trace(alloc, &session.source, &trace)?,
        }),
        Err(PairFault::Event { at }) => Ok(SeqAnswer::Refused {
            rule: SeqRule::E,
            line: session.first_line + at,
            column: 1,
        }),
        Err(PairFault::NoMemory) => Err(NoMemory),
    }
}

/// What is answered of a function of the source.
fn judged(alloc: Global, session: &Session, function: usize) -> Result<SeqAnswer, NoMemory>
    requires source { IsWellFormed session.now.source }
    requires target { IsWellFormed session.now.target }
    requires there { function < length session.now.source.functions }
    requires few { length session.now.events.items < 2 ^ 32 }
    requires lines { session.now.first_line + length session.now.events.items < 2 ^ 32 }
    ensures { IfOk result (λ a. IsFunctionAnswer session.now.source session.now.target function session.now.events.items session.now.first_line a) }
{
    if !same_shape(&session.source, &session.target) {
        return Ok(SeqAnswer::OtherShape);
    }
    let source = function_of(&session.source, function);
    let target = function_of(&session.target, function);
    match validate(alloc, &Summed, source, target)? {
        Judged::No { site, why } => Ok(SeqAnswer::RefusedFunction {
            function: function as u32,
            site,
            why,
        }),
        Judged::Yes => played(alloc, session, function as u32),
    }
}

/// What is answered of the function of a name.
fn named(alloc: Global, session: &Session, name: &[u8]) -> Result<SeqAnswer, NoMemory>
    requires source { IsWellFormed session.now.source }
    requires target { IsWellFormed session.now.target }
    requires few { length session.now.events.items < 2 ^ 32 }
    requires lines { session.now.first_line + length session.now.events.items < 2 ^ 32 }
    ensures { IfOk result (λ a. IsNamedAnswer session.now.source session.now.target session.now.events.items session.now.first_line
        (function_number session.now.source.functions name.now) a) }
{
    match function_number(session.source.functions.as_slice(), name) {
        Some(function) => judged(alloc, session, function),
        None => Ok(SeqAnswer::Refused {
            rule: SeqRule::F,
            line: 1,
            column: 1,
        }),
    }
}

/// What is answered to an input of fewer than 2^32 - 1 bytes and the name of a function: the input's first refusal; or, where
/// the source has no function of the name, a refusal of rule `F` in line 1; or that the programs are of another shape, or
/// the function's first fault; or a refusal of rule `E` at the first event that isn't lawful; or the lines of the trace of
/// target and source, whose labels match.
///
/// # Errors
/// Want of memory.
pub fn seq_answer(alloc: Global, input: &[u8], name: &[u8]) -> Result<SeqAnswer, NoMemory>
    requires { length input.now < 2 ^ 32 - 1 }
    ensures { IfOk result (λ a. IsSeqAnswer input.now name.now a) }
{
    match read_session(alloc, input) {
        Ok(session) => named(alloc, &session, name),
        Err(InputFault::Refused { rule, line, column }) => {
            Ok(SeqAnswer::Refused { rule, line, column })
        }
        Err(InputFault::NoMemory) => Err(NoMemory),
    }
}
