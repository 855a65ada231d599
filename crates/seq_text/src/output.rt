//! The output of a session, written.
ghost use Rattle.std.specs.Prelude.{◌≡◌, ◌++◌, ◌∷◌, [], IfOk, OnOk, codes};
ghost use Rattle.std.specs.List.{flat_map, join_with_byte};
ghost use Rattle.il_syntax.specs.Text.{function_name, location_name, order_text};
ghost use Rattle.journal_text.specs.Line.{value_word};
ghost use Rattle.text_parts.specs.Lines.{whole_line};
ghost use Rattle.seq_text.specs.Output as spec;

use il_syntax::{Function, Location, Program};
use journal_text::{push, push_blank, push_name, push_order, push_signed, push_value};
use seq_pair::{PairEnd, PairLabel, PairTrace};
use seq_semantics::Seen;
use std::alloc::{AllocError, Global};
use values_undef::{Bytes, NoMemory, Order, Val};

/// A value of the target and one of the source.
fn push_pair(out: &mut Vec<u8>, target: Val, source: Val) -> Result<(), AllocError>
    ensures { OnOk result (out.new.items ≡ out.old.items ++ join_with_byte 32 (value_word target ∷ (value_word source ∷ []))) }
{
    push_value(out, target)?;
    push_blank(out)?;
    push_value(out, source)
}

/// A location and an order.
fn push_ordered(
    out: &mut Vec<u8>,
    atomic: &[Location],
    y: u32,
    order: Order,
) -> Result<(), AllocError>
    ensures { OnOk result (out.new.items ≡ out.old.items ++ join_with_byte 32 (location_name atomic.now y ∷ (order_text order ∷ []))) }
{
    push_name(out, atomic, y)?;
    push_blank(out)?;
    push_order(out, order)
}

/// An access with one pair of values.
fn push_access(
    out: &mut Vec<u8>,
    form: &[u8],
    atomic: &[Location],
    y: u32,
    order: Order,
    target: Val,
    source: Val,
) -> Result<(), AllocError>
    ensures { OnOk result (out.new.items ≡ out.old.items
        ++ join_with_byte 32 (form.now ∷ (location_name atomic.now y ∷ (order_text order ∷ (value_word target ∷ (value_word source ∷ [])))))) }
{
    push(out, form)?;
    push_blank(out)?;
    push_ordered(out, atomic, y, order)?;
    push_blank(out)?;
    push_pair(out, target, source)
}

/// An update, with the values that were read and those that were written.
fn push_update(
    out: &mut Vec<u8>,
    atomic: &[Location],
    y: u32,
    order: Order,
    old: (Val, Val),
    new: (Val, Val),
) -> Result<(), AllocError>
    ensures { OnOk result (out.new.items ≡ out.old.items
        ++ join_with_byte 32 (codes "update" ∷ (location_name atomic.now y ∷ (order_text order
        ∷ (value_word old.0 ∷ (value_word old.1 ∷ (value_word new.0 ∷ (value_word new.1 ∷ [])))))))) }
{
    push_access(out, b"update", atomic, y, order, old.0, old.1)?;
    push_blank(out)?;
    push_pair(out, new.0, new.1)
}

/// The name of the function of this number, where there is one.
fn push_function(out: &mut Vec<u8>, functions: &[Function], i: u32) -> Result<(), AllocError>
    ensures { OnOk result (out.new.items ≡ out.old.items ++ function_name functions.now i) }
{
    match functions.get(i as usize) {
        Some(function) => push(out, function.name.as_slice()),
        None => Ok(()),
    }
}

/// A blank and a pair, of each pair of arguments.
fn push_arguments(out: &mut Vec<u8>, targets: &[Val], sources: &[Val]) -> Result<(), AllocError>
    ensures { OnOk result (out.new.items ≡ out.old.items ++ flat_map (λ word. 32 ∷ word) (spec.paired_words targets.now sources.now)) }
{
    match targets {
        [] => Ok(()),
        [t, ts @ ..] => match sources {
            [] => Ok(()),
            [s, ss @ ..] => {
                push_blank(out)?;
                push_pair(out, *t, *s)?;
                push_arguments(out, ts, ss)
            }
        },
    }
}

fn push_call(
    out: &mut Vec<u8>,
    functions: &[Function],
    function: u32,
    targets: &[Val],
    sources: &[Val],
) -> Result<(), AllocError>
    ensures { OnOk result (out.new.items ≡ out.old.items
        ++ join_with_byte 32 (codes "call" ∷ (function_name functions.now function ∷ spec.paired_words targets.now sources.now))) }
{
    push(out, b"call ")?;
    push_function(out, functions, function)?;
    push_arguments(out, targets, sources)
}

/// The line of a label, without its newline.
fn push_label(out: &mut Vec<u8>, p: &Program, label: &PairLabel) -> Result<(), AllocError>
    ensures { OnOk result (out.new.items ≡ out.old.items ++ spec.label_line p.now label.now) }
{
    let atomic = p.atomic.as_slice();
    match (&label.target, &label.source) {
        (Seen::Read { y, order, v }, Seen::Read { v: w, .. }) => {
            push_access(out, b"read", atomic, *y, *order, *v, *w)
        }
        (Seen::Write { y, order, v }, Seen::Write { v: w, .. }) => {
            push_access(out, b"write", atomic, *y, *order, *v, *w)
        }
        (
            Seen::Update { y, order, old, new },
            Seen::Update {
                old: source_old,
                new: source_new,
                ..
            },
        ) => push_update(
            out,
            atomic,
            *y,
            *order,
            (*old, *source_old),
            (*new, *source_new),
        ),
        (Seen::Miss { y, order, old }, Seen::Miss { old: w, .. }) => {
            push_access(out, b"miss", atomic, *y, *order, *old, *w)
        }
        (Seen::Fence { order }, Seen::Fence { .. }) => {
            push(out, b"fence ")?;
            push_order(out, *order)
        }
        (Seen::Print { v }, Seen::Print { .. }) => {
            push(out, b"print ")?;
            push_signed(out, *v)
        }
        (Seen::Call { function, args }, Seen::Call { args: sources, .. }) => push_call(
            out,
            p.functions.as_slice(),
            *function,
            args.as_slice(),
            sources.as_slice(),
        ),
        (Seen::End { v }, Seen::End { v: w }) => {
            push(out, b"end ")?;
            push_pair(out, *v, *w)
        }
        _ => Ok(()),
    }
}

fn push_label_line(out: &mut Vec<u8>, p: &Program, label: &PairLabel) -> Result<(), AllocError>
    ensures { OnOk result (out.new.items ≡ out.old.items ++ whole_line (spec.label_line p.now label.now)) }
{
    push_label(out, p, label)?;
    push(out, b"\n")
}

fn push_labels(out: &mut Vec<u8>, p: &Program, labels: &[PairLabel]) -> Result<(), AllocError>
    ensures { OnOk result (out.new.items ≡ out.old.items ++ spec.label_lines p.now labels.now) }
{
    for label in labels {
        push_label_line(out, p, label)?;
    }
    Ok(())
}

fn push_end(out: &mut Vec<u8>, end: PairEnd) -> Result<(), AllocError>
    ensures { OnOk result (out.new.items ≡ out.old.items ++ whole_line (spec.pair_end_line end)) }
{
    match end {
        PairEnd::Same => push(out, b"same\n"),
        PairEnd::SourceFailed => push(out, b"source failed\n"),
        PairEnd::Cut => push(out, b"cut\n"),
    }
}

/// The lines of a trace whose locations and functions are those of the program: a line for each label, in order, and one
/// for the end.
///
/// # Errors
/// Want of memory.
pub fn write_trace(alloc: Global, p: &Program, trace: &PairTrace) -> Result<Bytes, NoMemory>
    ensures { IfOk result (λ bytes. bytes ≡ spec.trace_text p.now trace.now.labels trace.now.end) }
{
    let mut out = Vec::new(alloc);
    push_labels(&mut out, p, trace.labels.labels.as_slice())?;
    push_end(&mut out, trace.end)?;
    Ok(Bytes { bytes: out })
}
