//! What is written of a program's outcomes and its expectations.
ghost use Rattle.std.specs.Prelude.{◌≡◌, ℕ, ◌<◌, ◌^◌, IfOk, length};
ghost use Rattle.std.specs.List.{flat_map};
ghost use Rattle.il_syntax.specs.WellFormed.{IsWellFormed};
ghost use Rattle.outcome_search.specs.Runs.{HasMoreNodes};
ghost use Rattle.outcomes_session.specs.Output.{found_text};
ghost use Rattle.outcomes_session.specs.Session.{AreAllOutcomes, HasOutcomesCondition, IsToldOf, told_outcomes};
ghost use Rattle.outcomes_session.specs.Telling.{IsTelling};

use crate::found::outcomes;
use crate::judging::push_judged;
use crate::text::{push_budget, push_count, push_found};
use il_syntax::Program;
use litmus::{RunOutcome, outcome_of};
use litmus_text::Expectation;
use outcome_list::Found;
use outcome_search::Stop;
use std::alloc::Global;
use values_undef::{Bytes, NoMemory};

/// What came of a search.
#[derive(Drop)]
pub(crate) enum Telling {
    TooMany,
    Told { text: Bytes, met: bool },
}

/// The text of the outcomes, and what each comes to.
#[derive(Drop)]
pub(crate) struct Written {
    pub(crate) text: Vec<u8>,
    pub(crate) outcomes: Vec<RunOutcome>,
}

fn write_all(alloc: Global, p: &Program, list: &[Found]) -> Result<Written, NoMemory>
    requires na { length p.now.na < 2 ^ 32 }
    requires atomic { length p.now.atomic < 2 ^ 32 }
    requires threads { length p.now.threads < 2 ^ 32 }
    ensures text { IfOk result (λ w. w.text.items ≡ flat_map (found_text p.now) list.now) }
    ensures outcomes { IfOk result (λ w. w.outcomes.items ≡ told_outcomes p.now list.now) }
{
    let threads = p.threads.len() as u32;
    let mut text = Vec::new(alloc);
    let mut outcomes = Vec::new(alloc);
    for found in list {
        let outcome = outcome_of(alloc, &found.journal, threads)?;
        push_found(&mut text, p, found, &outcome)?;
        outcomes.push(outcome)?;
    }
    Ok(Written { text, outcomes })
}

/// What is told of a list of all outcomes.
fn tell_list(
    alloc: Global,
    p: &Program,
    expectations: &[Expectation],
    list: &[Found],
) -> Result<Telling, NoMemory>
    requires na { length p.now.na < 2 ^ 32 }
    requires atomic { length p.now.atomic < 2 ^ 32 }
    requires threads { length p.now.threads < 2 ^ 32 }
    ensures { (steps states : ℕ) → AreAllOutcomes p.now steps list.now → (HasMoreNodes p.now steps states → ⊥) → IfOk result (λ t. IsTelling p.now expectations.now steps states t) }
{
    let Written { mut text, outcomes } = write_all(alloc, p, list)?;
    let come = outcomes.as_slice();
    let met = push_judged(alloc, &mut text, p, expectations, list, come)?;
    push_count(&mut text, list.len())?;
    push_budget(&mut text, list)?;
    Ok(Telling::Told {
        text: Bytes { bytes: text },
        met,
    })
}

/// What is told of a program's outcomes within a budget.
pub(crate) fn tell(
    alloc: Global,
    p: &Program,
    expectations: &[Expectation],
    steps: u64,
    states: u64,
) -> Result<Telling, NoMemory>
    requires well_formed { IsWellFormed p.now }
    requires condition { HasOutcomesCondition steps states }
    ensures { IfOk result (λ t. IsTelling p.now expectations.now steps states t) }
{
    match outcomes(alloc, p, steps, states) {
        Ok(list) => tell_list(alloc, p, expectations, list.as_slice()),
        Err(Stop::TooMany) => Ok(Telling::TooMany),
        Err(Stop::NoMemory) => Err(NoMemory),
    }
}
