//! `gen`: a program that is made from a number, or what the passes did to it and how a run of it ends.
ghost use Rattle.std.specs.Prelude.{◌≡◌, ◌≤◌, ◌++◌, length, IfOk, OnOk};
ghost use Rattle.il_syntax.specs.WellFormed.{IsWellFormed};
ghost use Rattle.il_syntax.specs.Text.{program_text};
ghost use Rattle.simulation.specs.Chain.{AreAcceptedTargets};
ghost use Rattle.reports.specs.Targets.{target_program};
ghost use Rattle.tool.specs.Gen.{IsChainSummary, IsGenOutput, IsSummary, counts_lines, number_line, summary_lines};

use crate::answer::Output;
use crate::commands::replaying::ending_word;
use crate::memory::Memory;
use crate::status::Status;
use crate::walks::drawn;
use flow_summary::Summed;
use gen_program::generate;
use il_printer::print;
use il_syntax::Program;
use itoa::Buffer;
use pass_chain::{Counts, ProgramChain, count};
use reports::{optimised, target};
use simulation::lift_chain;
use std::alloc::Global;
use std::thread::Threads;
use values_undef::{Ending, Journal, NoMemory};
use words::Form;

/// How many steps each thread of the walk may make.
const STEPS: u64 = 1000;

/// The canonical text of a program.
fn text(alloc: Global, p: &Program) -> Result<Vec<u8>, NoMemory>
    ensures { IfOk result (λ bytes. bytes.items ≡ program_text p.now) }
{
    Ok(print(alloc, p)?.bytes)
}

/// Puts a line of a word and a number to the end.
fn push_line(bytes: &mut Vec<u8>, word: &str, n: u64) -> Result<(), NoMemory>
    ensures { OnOk result (bytes.new.items ≡ bytes.old.items ++ number_line word.now n) }
{
    let mut buffer = Buffer::new();
    bytes.extend_from_slice(word.as_bytes())?;
    bytes.push(b' ')?;
    bytes.extend_from_slice(buffer.format(n).as_bytes())?;
    bytes.push(b'\n')?;
    Ok(())
}

/// Puts the lines of what the passes did to the end.
fn push_counts(bytes: &mut Vec<u8>, counts: Counts) -> Result<(), NoMemory>
    ensures { OnOk result (bytes.new.items ≡ bytes.old.items ++ counts_lines counts) }
{
    push_line(bytes, "functions", counts.functions)?;
    push_line(bytes, "statements", counts.statements)?;
    push_line(bytes, "forwarded", counts.forwarded)?;
    push_line(bytes, "introduced", counts.introduced)?;
    push_line(bytes, "removed", counts.removed)?;
    Ok(())
}

/// The seven lines of a summary.
fn lines(alloc: Global, counts: Counts, entries: u64, ending: Ending) -> Result<Vec<u8>, NoMemory>
    ensures { IfOk result (λ bytes. bytes.items ≡ summary_lines counts entries ending) }
{
    let mut bytes = Vec::new(alloc);
    push_counts(&mut bytes, counts)?;
    push_line(&mut bytes, "entries", entries)?;
    bytes.extend_from_slice(b"end ")?;
    bytes.extend_from_slice(ending_word(ending).as_bytes())?;
    bytes.push(b'\n')?;
    Ok(bytes)
}

/// How many entries a journal has.
fn entries_of(journal: &Journal) -> u64
    ensures { result ≡ length journal.now }
{
    journal.entries.len() as u64
}

/// The summary of five programs that the passes have made: the last of them is walked, and its journal is lifted to the
/// first.
fn chain_summary(alloc: Global, number: u64, chain: &ProgramChain) -> Result<Vec<u8>, NoMemory>
    requires well_formed { IsWellFormed (target_program chain.now) }
    requires accepted { AreAcceptedTargets chain.now }
    ensures { IfOk result (λ bytes. IsChainSummary number chain.now bytes.items) }
{
    let walk = drawn(alloc, target(chain), &[], number, STEPS)?;
    lift_chain::<Memory, Summed>(alloc, &Summed, chain, &walk.journal)?;
    let entries = entries_of(&walk.journal);
    lines(alloc, count(chain), entries, walk.ending)
}

/// The summary of a program that was made from this number.
fn summary<R: Threads + Sync>(
    alloc: Global,
    rt: &R,
    number: u64,
    p: &Program,
) -> Result<Vec<u8>, NoMemory>
    requires { IsWellFormed p.now }
    ensures { IfOk result (λ bytes. IsSummary number p.now bytes.items) }
{
    let chain = optimised(alloc, rt, p)?;
    chain_summary(alloc, number, &chain)
}

/// The output of `gen` for a number, so many functions and a form.
pub(crate) fn output<R: Threads + Sync>(
    alloc: Global,
    rt: &R,
    number: u64,
    functions: u32,
    form: Form,
) -> Result<Output, NoMemory>
    requires some { 1 ≤ functions }
    requires few { functions ≤ 256 }
    ensures { IfOk result (λ o. IsGenOutput number functions form o.bytes.items o.status) }
{
    let p = generate(alloc, number, functions)?;
    let bytes = match form {
        Form::Text => text(alloc, &p)?,
        Form::Summary => summary(alloc, rt, number, &p)?,
    };
    Ok(Output {
        bytes,
        status: Status::Done,
    })
}
