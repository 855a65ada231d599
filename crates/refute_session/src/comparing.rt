//! The outcomes of two programs side by side.
ghost use Rattle.std.specs.Prelude.{◌≡◌, ◌++◌, ◌<◌, ◌^◌, IfOk, OnOk, length};
ghost use Rattle.il_syntax.specs.WellFormed.{IsWellFormed};
ghost use Rattle.outcomes_session.specs.Output.{found_text};
ghost use Rattle.outcomes_session.specs.Session.{HasOutcomesCondition};
ghost use Rattle.refute_session.specs.Session.{IsAgainst, IsRefuteAnswer, IsRefuteVerdict, missed_text, unknown_text};

use crate::answer::RefuteAnswer;
use il_syntax::Program;
use journal_text::push;
use litmus::outcome_of;
use outcome_list::{Found, refines, some_is_spent};
use outcome_search::Stop;
use outcomes_session::{outcomes, push_found};
use std::alloc::Global;
use validator::same_shape;
use values_undef::{Bytes, NoMemory};

/// Puts an outcome of the program to the end.
fn push_outcome(
    alloc: Global,
    out: &mut Vec<u8>,
    p: &Program,
    found: &Found,
) -> Result<(), NoMemory>
    requires na { length p.now.na < 2 ^ 32 }
    requires atomic { length p.now.atomic < 2 ^ 32 }
    requires threads { length p.now.threads < 2 ^ 32 }
    ensures { OnOk result (out.new.items ≡ out.old.items ++ found_text p.now found.now) }
{
    let outcome = outcome_of(alloc, &found.journal, p.threads.len() as u32)?;
    push_found(out, p, found, &outcome)
}

/// What is written of an outcome that is missed.
fn missed(alloc: Global, p: &Program, found: &Found) -> Result<Bytes, NoMemory>
    requires na { length p.now.na < 2 ^ 32 }
    requires atomic { length p.now.atomic < 2 ^ 32 }
    requires threads { length p.now.threads < 2 ^ 32 }
    ensures { IfOk result (λ text. text ≡ missed_text p.now found.now) }
{
    let mut bytes = Vec::new(alloc);
    push(&mut bytes, b"missed\n")?;
    push_outcome(alloc, &mut bytes, p, found)?;
    Ok(Bytes { bytes })
}

/// What is written of an outcome that a longer run of the source may have.
fn unknown(alloc: Global, p: &Program, found: &Found) -> Result<Bytes, NoMemory>
    requires na { length p.now.na < 2 ^ 32 }
    requires atomic { length p.now.atomic < 2 ^ 32 }
    requires threads { length p.now.threads < 2 ^ 32 }
    ensures { IfOk result (λ text. text ≡ unknown_text p.now found.now) }
{
    let mut bytes = Vec::new(alloc);
    push(&mut bytes, b"unknown\n")?;
    push_outcome(alloc, &mut bytes, p, found)?;
    Ok(Bytes { bytes })
}

/// What is answered of the outcomes of the source and those of the target.
fn verdict(
    alloc: Global,
    target: &Program,
    source_list: &[Found],
    target_list: &[Found],
) -> Result<RefuteAnswer, NoMemory>
    requires na { length target.now.na < 2 ^ 32 }
    requires atomic { length target.now.atomic < 2 ^ 32 }
    requires threads { length target.now.threads < 2 ^ 32 }
    ensures { IfOk result (λ a. IsRefuteVerdict target.now source_list.now target_list.now a) }
{
    let Some(at) = refines(target_list, source_list) else {
        return Ok(RefuteAnswer::Refines);
    };
    let found = &target_list[at];
    if some_is_spent(source_list) {
        let text = unknown(alloc, target, found)?;
        Ok(RefuteAnswer::Unknown { text })
    } else {
        let text = missed(alloc, target, found)?;
        Ok(RefuteAnswer::Missed { text })
    }
}

/// What is answered of the target, where all outcomes of the source are known.
fn against(
    alloc: Global,
    source_list: &[Found],
    target: &Program,
    steps: u64,
    states: u64,
) -> Result<RefuteAnswer, NoMemory>
    requires target { IsWellFormed target.now }
    requires condition { HasOutcomesCondition steps states }
    ensures { IfOk result (λ a. IsAgainst source_list.now target.now steps states a) }
{
    match outcomes(alloc, target, steps, states) {
        Ok(target_list) => verdict(alloc, target, source_list, target_list.as_slice()),
        Err(Stop::TooMany) => Ok(RefuteAnswer::TooMany),
        Err(Stop::NoMemory) => Err(NoMemory),
    }
}

/// What is answered of two programs.
pub(crate) fn compared(
    alloc: Global,
    source: &Program,
    target: &Program,
    steps: u64,
    states: u64,
) -> Result<RefuteAnswer, NoMemory>
    requires source { IsWellFormed source.now }
    requires target { IsWellFormed target.now }
    requires condition { HasOutcomesCondition steps states }
    ensures { IfOk result (λ a. IsRefuteAnswer source.now target.now steps states a) }
{
    if !same_shape(source, target) {
        return Ok(RefuteAnswer::OtherShape);
    }
    match outcomes(alloc, source, steps, states) {
        Ok(source_list) => against(alloc, source_list.as_slice(), target, steps, states),
        Err(Stop::TooMany) => Ok(RefuteAnswer::TooMany),
        Err(Stop::NoMemory) => Err(NoMemory),
    }
}
