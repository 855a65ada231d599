//! Expectations, judged by the outcomes of a list.
ghost use Rattle.std.specs.Prelude.{◌≡◌, ◌++◌, IfOk, OnOk, length};
ghost use Rattle.std.specs.List.{list_all, list_any};
ghost use Rattle.litmus.specs.Outcome.{outcome_in};
ghost use Rattle.litmus_text.specs.Output.{are_met, verdict_lines, wanted};
ghost use Rattle.outcomes_session.specs.Judging.{equal_values, has_value, is_as_expected, is_met_by};
ghost use Rattle.outcomes_session.specs.Session.{told_outcomes};

use crate::text::value_at;
use il_syntax::Program;
use litmus::{RunOutcome, same_outcome};
use litmus_text::{Expectation, ExpectedWord, push_verdict, verdict, wanted};
use outcome_list::Found;
use std::alloc::Global;
use values_undef::{NoMemory, Val};

/// Whether two values are the same.
fn equal_values(v: Val, w: Val) -> bool
    ensures { result ≡ equal_values v w }
{
    match (v, w) {
        (Val::Def(m), Val::Def(n)) => m == n,
        (Val::Undef, Val::Undef) => true,
        _ => false,
    }
}

/// Whether the location that a word names has the last value that it names.
fn has_value(values: &[Val], word: &ExpectedWord) -> bool
    ensures { result ≡ has_value values.now word.now }
{
    match word {
        ExpectedWord::Output { .. } => true,
        ExpectedWord::Last { last } => equal_values(value_at(values, last.place), last.value),
    }
}

/// Whether the locations that words name have the last values that they name.
fn has_values(values: &[Val], words: &[ExpectedWord]) -> bool
    ensures { result ≡ list_all (has_value values.now) words.now }
{
    words.iter().all(|word| has_value(values, word))
}

/// Whether a run of a list, which comes to this outcome, has what an expectation names.
fn is_as_expected(
    _p: &Program,
    e: &Expectation,
    sought: &RunOutcome,
    found: &Found,
    outcome: &RunOutcome,
) -> bool
    requires sought { sought.now ≡ wanted e.now }
    requires outcome { outcome.now ≡ outcome_in found.now.journal (length _p.now.threads) }
    ensures { result ≡ is_as_expected _p.now e.now found.now }
{
    let values = found.outcome.values.as_slice();
    same_outcome(sought, outcome) && has_values(values, e.words.as_slice())
}

/// Whether a run of a list, which come to these outcomes, has what an expectation names.
fn is_found(
    p: &Program,
    e: &Expectation,
    sought: &RunOutcome,
    list: &[Found],
    outcomes: &[RunOutcome],
) -> bool
    requires sought { sought.now ≡ wanted e.now }
    requires outcomes { outcomes.now ≡ told_outcomes p.now list.now }
    ensures { result ≡ list_any (is_as_expected p.now e.now) list.now }
{
    let mut there = false;
    for i in 0..list.len() {
        let here = is_as_expected(p, e, sought, &list[i], &outcomes[i]);
        there = there || here;
    }
    there
}

/// Whether an expectation is met by a list of all outcomes.
fn is_met(
    alloc: Global,
    p: &Program,
    e: &Expectation,
    list: &[Found],
    outcomes: &[RunOutcome],
) -> Result<bool, NoMemory>
    requires { outcomes.now ≡ told_outcomes p.now list.now }
    ensures { IfOk result (λ met. met ≡ is_met_by p.now list.now e.now) }
{
    let sought = wanted(alloc, e)?;
    Ok(verdict(e, is_found(p, e, &sought, list, outcomes)))
}

/// Puts a line for each expectation to the end, and tells whether all are met by a list, whose runs come to these outcomes.
pub(crate) fn push_judged(
    alloc: Global,
    out: &mut Vec<u8>,
    p: &Program,
    expectations: &[Expectation],
    list: &[Found],
    outcomes: &[RunOutcome],
) -> Result<bool, NoMemory>
    requires { outcomes.now ≡ told_outcomes p.now list.now }
    ensures written { OnOk result (out.new.items ≡ out.old.items ++ verdict_lines (is_met_by p.now list.now) expectations.now) }
    ensures met { IfOk result (λ met. met ≡ are_met (is_met_by p.now list.now) expectations.now) }
{
    let mut all = true;
    for expectation in expectations {
        let met = is_met(alloc, p, expectation, list, outcomes)?;
        push_verdict(out, met)?;
        all = all && met;
    }
    Ok(all)
}
