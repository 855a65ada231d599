//! The text of the outcomes.
ghost use Rattle.std.specs.Prelude.{◌≡◌, ◌++◌, ℕ, ◌<◌, ◌^◌, OnOk, length, slice_index_or};
ghost use Rattle.std.specs.Fmt.{decimal};
ghost use Rattle.text_parts.specs.Lines.{whole_line};
ghost use Rattle.litmus.specs.Outcome.{outcome_in};
ghost use Rattle.outcomes_session.specs.Output.{are_all_done, budget_lines, is_done_ending, value_line, value_lines, final_lines, found_text, outcomes_line};

use il_syntax::{Location, Program};
use itoa::Buffer;
use journal_text::{push, push_name, push_value};
use litmus::RunOutcome;
use litmus_text::{push_ending, push_outputs, push_titled};
use outcome_list::Found;
use std::alloc::AllocError;
use values_undef::{Ending, NoMemory, Val};

/// The value of this place, or none where there is no such place.
pub(crate) fn value_at(values: &[Val], at: usize) -> Val
    ensures { result ≡ slice_index_or values.now at Val.Undef }
{
    match values.get(at) {
        Some(value) => *value,
        None => Val::Undef,
    }
}

fn push_value_line(
    out: &mut Vec<u8>,
    locations: &[Location],
    values: &[Val],
    from: usize,
    i: usize,
) -> Result<(), AllocError>
    requires few { length locations.now < 2 ^ 32 }
    requires there { i < length locations.now }
    requires from { from < 2 ^ 32 }
    ensures { OnOk result (out.new.items ≡ out.old.items ++ whole_line (value_line locations.now values.now from i)) }
{
    push_name(out, locations, i as u32)?;
    push(out, b"=")?;
    push_value(out, value_at(values, from + i))?;
    push(out, b"\n")
}

/// A line for each location, whose values begin at this place.
fn push_value_lines(
    out: &mut Vec<u8>,
    locations: &[Location],
    values: &[Val],
    from: usize,
) -> Result<(), AllocError>
    requires few { length locations.now < 2 ^ 32 }
    requires from { from < 2 ^ 32 }
    ensures { OnOk result (out.new.items ≡ out.old.items ++ value_lines locations.now values.now from) }
{
    for i in 0..locations.len() {
        push_value_line(out, locations, values, from, i)?;
    }
    Ok(())
}

/// The last values, where the run is done.
fn push_final_lines(
    out: &mut Vec<u8>,
    p: &Program,
    ending: Ending,
    values: &[Val],
) -> Result<(), AllocError>
    requires na { length p.now.na < 2 ^ 32 }
    requires atomic { length p.now.atomic < 2 ^ 32 }
    ensures { OnOk result (out.new.items ≡ out.old.items ++ final_lines p.now ending values.now) }
{
    match ending {
        Ending::Done => {
            push_value_lines(out, p.na.as_slice(), values, 0)?;
            push_value_lines(out, p.atomic.as_slice(), values, p.na.len())
        }
        Ending::Failed | Ending::Spent => Ok(()),
    }
}

/// Puts the text of an outcome to the end: its ending, its outputs by thread, the last values where it is done, and the journal. What
/// the journal comes to is handed in, since callers need it too.
pub fn push_found(
    out: &mut Vec<u8>,
    p: &Program,
    found: &Found,
    outcome: &RunOutcome,
) -> Result<(), NoMemory>
    requires na { length p.now.na < 2 ^ 32 }
    requires atomic { length p.now.atomic < 2 ^ 32 }
    requires outcome { outcome.now ≡ outcome_in found.now.journal (length p.now.threads) }
    ensures { OnOk result (out.new.items ≡ out.old.items ++ found_text p.now found.now) }
{
    push(out, b"outcome\n")?;
    push_ending(out, found.outcome.ending)?;
    push_outputs(out, outcome.outputs.as_slice())?;
    push_final_lines(
        out,
        p,
        found.outcome.ending,
        found.outcome.values.as_slice(),
    )?;
    push_titled(out, b"journal", p, found.journal.entries.as_slice())?;
    Ok(())
}

/// Puts the line of how many outcomes there are to the end.
pub(crate) fn push_count(out: &mut Vec<u8>, n: usize) -> Result<(), NoMemory>
    ensures { OnOk result (out.new.items ≡ out.old.items ++ whole_line (outcomes_line n)) }
{
    let mut buffer = Buffer::new();
    push(out, b"outcomes ")?;
    push(out, buffer.format(n as u64).as_bytes())?;
    push(out, b"\n")?;
    Ok(())
}

/// Whether the ending is that of a run that is done.
fn is_done_ending(ending: Ending) -> bool
    ensures { result ≡ is_done_ending ending }
{
    matches!(ending, Ending::Done)
}

/// Whether each outcome is done.
fn are_all_done(list: &[Found]) -> bool
    ensures { result ≡ are_all_done list.now }
{
    list.iter().all(|f| is_done_ending(f.outcome.ending))
}

/// Puts the line that says that these outcomes are those of every greater budget to the end, where each of them is done.
pub(crate) fn push_budget(out: &mut Vec<u8>, list: &[Found]) -> Result<(), NoMemory>
    ensures { OnOk result (out.new.items ≡ out.old.items ++ budget_lines list.now) }
{
    if are_all_done(list) {
        push(out, b"every budget\n")?;
    }
    Ok(())
}
