//! The report of a run.
ghost use Rattle.std.specs.Prelude.{◌≡◌, ◌++◌, ◌∷◌, [], IfOk, OnOk, codes};
ghost use Rattle.std.specs.Option.{option_map_or};
ghost use Rattle.std.specs.Fmt.{decimal, signed_decimal};
ghost use Rattle.std.specs.List.{flat_map, join_with_byte};
ghost use Rattle.values_undef.specs.Journal.{printed};
ghost use Rattle.text_parts.specs.Lines.{whole_line};
ghost use Rattle.journal_text.specs.Line.{entry_line};
ghost use Rattle.journal_text.specs.Report as spec;

use crate::line::push_entry;
use crate::pieces::{push, push_blank, push_number, push_signed};
use il_printer::push_program;
use il_syntax::Program;
use std::alloc::{AllocError, Global};
use values_undef::{Bytes, Ending, Entry, Event, Journal, NoMemory, ending_of};

fn push_entry_line(out: &mut Vec<u8>, p: &Program, entry: &Entry) -> Result<(), AllocError>
    ensures { OnOk result (out.new.items ≡ out.old.items ++ whole_line (entry_line p.now entry.now)) }
{
    push_entry(out, p, entry)?;
    out.push(b'\n')?;
    Ok(())
}

fn push_entries(out: &mut Vec<u8>, p: &Program, entries: &[Entry]) -> Result<(), AllocError>
    ensures { OnOk result (out.new.items ≡ out.old.items ++ spec.entry_lines p.now entries.now) }
{
    for entry in entries {
        push_entry_line(out, p, entry)?;
    }
    Ok(())
}

fn push_ending(out: &mut Vec<u8>, ending: Ending) -> Result<(), AllocError>
    ensures { OnOk result (out.new.items ≡ out.old.items ++ whole_line (spec.end_line ending)) }
{
    match ending {
        Ending::Done => push(out, b"end done\n"),
        Ending::Failed => push(out, b"end failed\n"),
        Ending::Spent => push(out, b"end spent\n"),
    }
}

/// The entries of a journal and its ending.
fn push_journal(
    out: &mut Vec<u8>,
    p: &Program,
    journal: &Journal,
    threads: u32,
) -> Result<(), AllocError>
    ensures { OnOk result (out.new.items ≡ out.old.items ++ spec.journal_text p.now journal.now threads) }
{
    push_entries(out, p, journal.entries.as_slice())?;
    push_ending(out, ending_of(journal, threads))
}

/// The entries of a journal and its ending, as a text of its own.
fn journal_lines(
    alloc: Global,
    p: &Program,
    journal: &Journal,
    threads: u32,
) -> Result<Vec<u8>, AllocError>
    ensures { IfOk result (λ lines. lines.items ≡ spec.journal_text p.now journal.now threads) }
{
    let mut lines = Vec::new(alloc);
    push_journal(&mut lines, p, journal, threads)?;
    Ok(lines)
}

/// A title line and a text.
fn push_titled(out: &mut Vec<u8>, title: &[u8], text: &[u8]) -> Result<(), AllocError>
    ensures { OnOk result (out.new.items ≡ out.old.items ++ (whole_line title.now ++ text.now)) }
{
    push(out, title)?;
    push(out, b"\n")?;
    push(out, text)
}

/// The two journals under their titles. Where the second is none it is the first, and is written as that is.
fn push_journals(
    alloc: Global,
    out: &mut Vec<u8>,
    p: &Program,
    journal: &Journal,
    source: Option<&Journal>,
    threads: u32,
) -> Result<(), AllocError>
    ensures { OnOk result (out.new.items ≡ out.old.items ++ (spec.titled_journal (codes "journal") p.now journal.now threads ++ spec.titled_journal (codes "source") p.now (option_map_or (λ s. s.now) source.entry journal.now) threads)) }
{
    let lines = journal_lines(alloc, p, journal, threads)?;
    push_titled(out, b"journal", lines.as_slice())?;
    match source {
        None => push_titled(out, b"source", lines.as_slice()),
        Some(source) => {
            push(out, b"source\n")?;
            push_journal(out, p, source, threads)
        }
    }
}

fn push_output(out: &mut Vec<u8>, thread: u32, value: i64) -> Result<(), AllocError>
    ensures { OnOk result (out.new.items ≡ out.old.items ++ whole_line (spec.output_line (record { thread = thread; value = value }))) }
{
    push_number(out, u64::from(thread))?;
    push_blank(out)?;
    push_signed(out, value)?;
    push(out, b"\n")
}

/// The line of what an entry prints, where it prints.
fn push_printed(out: &mut Vec<u8>, entry: &Entry) -> Result<(), AllocError>
    ensures { OnOk result (out.new.items ≡ out.old.items ++ flat_map (λ output. whole_line (spec.output_line output)) (printed entry.now.thread entry.now.event)) }
{
    match entry.event {
        Event::Print { v } => push_output(out, entry.thread, v),
        Event::NaRead { .. }
        | Event::NaWrite { .. }
        | Event::Read { .. }
        | Event::Write { .. }
        | Event::Update { .. }
        | Event::Miss { .. }
        | Event::Fence { .. }
        | Event::Fail { .. }
        | Event::FailCompare { .. }
        | Event::Finish
        | Event::Spend => Ok(()),
    }
}

fn push_outputs(out: &mut Vec<u8>, entries: &[Entry]) -> Result<(), AllocError>
    ensures { OnOk result (out.new.items ≡ out.old.items ++ spec.outputs_text entries.now) }
{
    for entry in entries {
        push_printed(out, entry)?;
    }
    Ok(())
}

/// The printed values under their title line.
fn push_titled_outputs(out: &mut Vec<u8>, journal: &Journal) -> Result<(), AllocError>
    ensures { OnOk result (out.new.items ≡ out.old.items ++ spec.titled_outputs journal.now) }
{
    push(out, b"outputs\n")?;
    push_outputs(out, journal.entries.as_slice())
}

/// The report of a run: the program that ran, its journal, the journal of the program that was
/// given, which is the same where it is none, and the values that the run printed. Both journals name locations of the program, which
/// has so many threads. It is a total function: a number that names no location is written as an
/// empty name.
pub fn report(
    alloc: Global,
    p: &Program,
    journal: &Journal,
    source: Option<&Journal>,
    threads: u32,
) -> Result<Bytes, NoMemory>
    ensures { IfOk result (λ bytes. bytes ≡ spec.report_text p.now journal.now (option_map_or (λ s. s.now) source.entry journal.now) threads) }
{
    let mut out = Vec::new(alloc);
    push(&mut out, b"program\n")?;
    push_program(&mut out, p)?;
    push_journals(alloc, &mut out, p, journal, source, threads)?;
    push_titled_outputs(&mut out, journal)?;
    Ok(Bytes { bytes: out })
}
