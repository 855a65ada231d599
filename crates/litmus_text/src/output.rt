//! The output of `litmus`.
ghost use Rattle.std.specs.Prelude.{◌≡◌, ◌++◌, OnOk, IfOk, codes};
ghost use Rattle.std.specs.Fmt.{decimal};
ghost use Rattle.journal_text.specs.Line.{entry_line};
ghost use Rattle.journal_text.specs.Report.{end_line, entry_lines};
ghost use Rattle.std.specs.List.{list_any};
ghost use Rattle.litmus.specs.Outcome.{same_outcome};
ghost use Rattle.text_parts.specs.Lines.{whole_line};
ghost use Rattle.litmus_text.specs.Output.{are_met, sample_line, is_met, outcome_text, output_named, outputs_named, printed_line, printed_lines, titled_entries, verdict, verdict_line, verdict_lines, wanted};

use crate::expectation::{Expectation, ExpectedWord};
use il_syntax::Program;
use itoa::Buffer;
use journal_text::{push, push_blank, push_entry, push_signed};
use litmus::{Printed, RunOutcome, Sample, ordered_outputs, same_outcome};
use std::alloc::{AllocError, Global};
use values_undef::{Ending, Entry, NoMemory};

fn push_number(out: &mut Vec<u8>, n: u64) -> Result<(), AllocError>
    ensures { OnOk result (out.new.items ≡ out.old.items ++ decimal n) }
{
    let mut buffer = Buffer::new();
    push(out, buffer.format(n).as_bytes())
}

fn push_counts(out: &mut Vec<u8>, sample: &Sample) -> Result<(), AllocError>
    ensures { OnOk result (out.new.items ≡ out.old.items ++ whole_line (sample_line sample.now)) }
{
    push(out, b"outcome ")?;
    push_number(out, sample.count)?;
    push_blank(out)?;
    push_number(out, sample.seed)?;
    push(out, b"\n")
}

/// Puts the line of an ending to the end.
pub fn push_ending(out: &mut Vec<u8>, ending: Ending) -> Result<(), AllocError>
    ensures { OnOk result (out.new.items ≡ out.old.items ++ whole_line (end_line ending)) }
{
    match ending {
        Ending::Done => push(out, b"end done\n"),
        Ending::Failed => push(out, b"end failed\n"),
        Ending::Spent => push(out, b"end spent\n"),
    }
}

fn push_printed(out: &mut Vec<u8>, output: Printed) -> Result<(), AllocError>
    ensures { OnOk result (out.new.items ≡ out.old.items ++ whole_line (printed_line output)) }
{
    push_number(out, u64::from(output.thread))?;
    push_blank(out)?;
    push_signed(out, output.value)?;
    push(out, b"\n")
}

/// Puts a line for each output to the end.
pub fn push_outputs(out: &mut Vec<u8>, outputs: &[Printed]) -> Result<(), AllocError>
    ensures { OnOk result (out.new.items ≡ out.old.items ++ printed_lines outputs.now) }
{
    for output in outputs {
        push_printed(out, *output)?;
    }
    Ok(())
}

fn push_entry_line(out: &mut Vec<u8>, p: &Program, entry: &Entry) -> Result<(), AllocError>
    ensures { OnOk result (out.new.items ≡ out.old.items ++ whole_line (entry_line p.now entry.now)) }
{
    push_entry(out, p, entry)?;
    push(out, b"\n")
}

fn push_entries(out: &mut Vec<u8>, p: &Program, entries: &[Entry]) -> Result<(), AllocError>
    ensures { OnOk result (out.new.items ≡ out.old.items ++ entry_lines p.now entries.now) }
{
    for entry in entries {
        push_entry_line(out, p, entry)?;
    }
    Ok(())
}

/// Puts entries under a title line to the end.
pub fn push_titled(
    out: &mut Vec<u8>,
    title: &[u8],
    p: &Program,
    entries: &[Entry],
) -> Result<(), AllocError>
    ensures { OnOk result (out.new.items ≡ out.old.items ++ titled_entries title.now p.now entries.now) }
{
    push(out, title)?;
    push(out, b"\n")?;
    push_entries(out, p, entries)
}

/// Puts an outcome to the end: how many seeds have it and the least of them, its ending, its outputs, the journal of the least
/// seed, and the journal of the program that was given. Both journals name locations of the program. The only error is want
/// of memory.
pub fn push_outcome(
    out: &mut Vec<u8>,
    p: &Program,
    sample: &Sample,
    outputs: &[Printed],
    source: &[Entry],
) -> Result<(), NoMemory>
    ensures { OnOk result (out.new.items ≡ out.old.items ++ outcome_text p.now sample.now outputs.now source.now) }
{
    push_counts(out, sample)?;
    push_ending(out, sample.ending)?;
    push_outputs(out, outputs)?;
    push_titled(out, b"journal", p, sample.journal.entries.as_slice())?;
    push_titled(out, b"source", p, source)?;
    Ok(())
}

/// Puts the output of a word to the end.
fn push_named(out: &mut Vec<Printed>, word: &ExpectedWord) -> Result<(), AllocError>
    ensures { OnOk result (out.new.items ≡ out.old.items ++ output_named word.now) }
{
    match word {
        ExpectedWord::Output { output } => out.push(*output)?,
        ExpectedWord::Last { .. } => {}
    }
    Ok(())
}

/// The outputs of the words, in their order.
fn outputs_named(alloc: Global, words: &[ExpectedWord]) -> Result<Vec<Printed>, AllocError>
    ensures { IfOk result (λ out. out.items ≡ outputs_named words.now) }
{
    let mut out = Vec::new(alloc);
    for word in words {
        push_named(&mut out, word)?;
    }
    Ok(out)
}

/// What an expectation says of the ending and of the outputs. The only error is want of memory.
pub fn wanted(alloc: Global, e: &Expectation) -> Result<RunOutcome, NoMemory>
    ensures { IfOk result (λ o. o ≡ wanted e.now) }
{
    let named = outputs_named(alloc, e.words.as_slice())?;
    let outputs = ordered_outputs(alloc, named.as_slice())?;
    Ok(RunOutcome {
        ending: Ending::Done,
        outputs,
    })
}

/// Whether an expectation is met, where there is what it speaks of or isn't.
pub fn verdict(e: &Expectation, there: bool) -> bool
    ensures { result ≡ verdict e.now there }
{
    if e.some { there } else { !there }
}

/// Whether an outcome is one of these.
fn is_among(outcomes: &[RunOutcome], wanted: &RunOutcome) -> bool
    ensures { result ≡ list_any (same_outcome wanted.now) outcomes.now }
{
    outcomes.iter().any(|o| same_outcome(wanted, o))
}

/// Whether an expectation that names no last values is met by these outcomes. The only error is want of memory.
pub fn is_met(alloc: Global, e: &Expectation, outcomes: &[RunOutcome]) -> Result<bool, NoMemory>
    ensures { IfOk result (λ met. met ≡ is_met outcomes.now e.now) }
{
    let wanted = wanted(alloc, e)?;
    Ok(verdict(e, is_among(outcomes, &wanted)))
}

/// Puts the line of an expectation that is met, or isn't, to the end.
pub fn push_verdict(out: &mut Vec<u8>, met: bool) -> Result<(), NoMemory>
    ensures { OnOk result (out.new.items ≡ out.old.items ++ whole_line (verdict_line met)) }
{
    if met {
        push(out, b"met\n")?;
    } else {
        push(out, b"unmet\n")?;
    }
    Ok(())
}

/// Puts a line for each expectation to the end, and tells whether all are met by these outcomes. They name no last values. The only
/// error is want of memory.
pub fn push_verdicts(
    alloc: Global,
    out: &mut Vec<u8>,
    expectations: &[Expectation],
    outcomes: &[RunOutcome],
) -> Result<bool, NoMemory>
    ensures written { OnOk result (out.new.items ≡ out.old.items ++ verdict_lines (is_met outcomes.now) expectations.now) }
    ensures met { IfOk result (λ met. met ≡ are_met (is_met outcomes.now) expectations.now) }
{
    let mut all = true;
    for expectation in expectations {
        let met = is_met(alloc, expectation, outcomes)?;
        push_verdict(out, met)?;
        all = all && met;
    }
    Ok(all)
}
