//! Functions, locations, threads, and the whole program.
ghost use Rattle.std.specs.Prelude.{◌≡◌, ◌≤◌, ◌++◌, OnOk, IfOk, take, drop, codes};
ghost use Rattle.std.specs.List.{flat_map};
ghost use Rattle.il_syntax.specs.Text as spec;

use crate::pieces::{
    function_name, push, push_atom, push_line, push_names, push_number, push_numbers,
};
use crate::statements::push_statements;
use il_syntax::text_order::is_shallow;
use il_syntax::{Function, Location, Name, Program, Start, has_no_fence};
use std::alloc::Global;
use values_undef::{Bytes, NoMemory};

/// The parameters of a function: its first registers.
#[tactic(auto, using(crate::proofs::Lists::take_all))]
fn params(f: &Function) -> &[Name]
    ensures { result.now ≡ take f.now.params f.now.registers }
{
    let registers = f.registers.as_slice();
    let count = f.params as usize;
    if count < registers.len() {
        &registers[..count]
    } else {
        registers
    }
}

/// Its other registers.
fn own_registers(f: &Function) -> &[Name]
    ensures { result.now ≡ drop f.now.params f.now.registers }
{
    let registers = f.registers.as_slice();
    let count = f.params as usize;
    if count < registers.len() {
        &registers[count..]
    } else {
        &[]
    }
}

fn push_registers(out: &mut Vec<u8>, registers: &[Name]) -> Result<(), NoMemory>
    ensures { OnOk result (out.new.items ≡ out.old.items ++ spec.registers_text registers.now) }
{
    match registers {
        [] => Ok(()),
        names => {
            push(out, b"  reg ")?;
            push_names(out, names)?;
            push(out, b";\n")
        }
    }
}

fn push_head(out: &mut Vec<u8>, f: &Function) -> Result<(), NoMemory>
    ensures { OnOk result (out.new.items ≡ out.old.items ++ spec.line 0 (codes "fn " ++ f.now.name ++ codes "(" ++ spec.listed (take f.now.params f.now.registers) ++ codes ") {")) }
{
    push(out, b"fn ")?;
    push(out, f.name.as_slice())?;
    push(out, b"(")?;
    push_names(out, params(f))?;
    push(out, b") {")?;
    push(out, b"\n")
}

fn push_return(out: &mut Vec<u8>, f: &Function) -> Result<(), NoMemory>
    ensures { OnOk result (out.new.items ≡ out.old.items ++ spec.line 1 (codes "return " ++ spec.atom_text f.now.registers f.now.result ++ codes ";")) }
{
    push(out, b"  return ")?;
    push_atom(out, f.registers.as_slice(), f.result)?;
    push(out, b";\n")
}

/// The lines of a function's own registers and of its statements. A text with 2^32 blocks in one
/// another has more than 2^64 bytes of indentation, for which there is no memory.
fn push_inside(out: &mut Vec<u8>, p: &Program, f: &Function) -> Result<(), NoMemory>
    ensures { OnOk result (out.new.items ≡ out.old.items ++ (spec.registers_text (drop f.now.params f.now.registers) ++ spec.statements_text p.now f.now.registers 1 f.now.body.statements)) }
{
    let statements = f.body.statements.as_slice();
    if !is_shallow(statements, u32::MAX) {
        return Err(NoMemory);
    }
    push_registers(out, own_registers(f))?;
    push_statements(out, 1, p, f.registers.as_slice(), statements)
}

fn push_tail(out: &mut Vec<u8>, f: &Function) -> Result<(), NoMemory>
    ensures { OnOk result (out.new.items ≡ out.old.items ++ (spec.line 1 (codes "return " ++ spec.atom_text f.now.registers f.now.result ++ codes ";") ++ spec.line 0 (codes "}"))) }
{
    push_return(out, f)?;
    push_line(out, 0, b"}")
}

#[tactic(auto, unfolding(il_syntax::specs::Text::function_text))]
fn push_function(out: &mut Vec<u8>, p: &Program, f: &Function) -> Result<(), NoMemory>
    ensures { OnOk result (out.new.items ≡ out.old.items ++ spec.function_text p.now f.now) }
{
    push_head(out, f)?;
    push_inside(out, p, f)?;
    push_tail(out, f)
}

fn push_functions(out: &mut Vec<u8>, p: &Program, functions: &[Function]) -> Result<(), NoMemory>
    ensures { OnOk result (out.new.items ≡ out.old.items ++ flat_map (spec.function_text p.now) functions.now) }
{
    for f in functions {
        push_function(out, p, f)?;
    }
    Ok(())
}

#[tactic(auto, unfolding(il_syntax::specs::Text::location_text))]
fn push_location(out: &mut Vec<u8>, sort: &[u8], l: &Location) -> Result<(), NoMemory>
    ensures { OnOk result (out.new.items ≡ out.old.items ++ spec.location_text sort.now l.now) }
{
    push(out, sort)?;
    push(out, b" ")?;
    push(out, l.name.as_slice())?;
    push(out, b" = ")?;
    push_number(out, l.value)?;
    push(out, b";")?;
    push(out, b"\n")
}

fn push_locations(out: &mut Vec<u8>, sort: &[u8], locations: &[Location]) -> Result<(), NoMemory>
    ensures { OnOk result (out.new.items ≡ out.old.items ++ flat_map (spec.location_text sort.now) locations.now) }
{
    for l in locations {
        push_location(out, sort, l)?;
    }
    Ok(())
}

#[tactic(auto, unfolding(il_syntax::specs::Text::thread_text))]
fn push_thread(out: &mut Vec<u8>, p: &Program, t: &Start) -> Result<(), NoMemory>
    ensures { OnOk result (out.new.items ≡ out.old.items ++ spec.thread_text p.now t.now) }
{
    push(out, b"thread ")?;
    push(out, function_name(p.functions.as_slice(), t.function))?;
    push(out, b"(")?;
    push_numbers(out, t.args.as_slice())?;
    push(out, b");")?;
    push(out, b"\n")
}

fn push_threads(out: &mut Vec<u8>, p: &Program, threads: &[Start]) -> Result<(), NoMemory>
    ensures { OnOk result (out.new.items ≡ out.old.items ++ flat_map (spec.thread_text p.now) threads.now) }
{
    for t in threads {
        push_thread(out, p, t)?;
    }
    Ok(())
}

fn push_header(out: &mut Vec<u8>, p: &Program) -> Result<(), NoMemory>
    ensures { OnOk result (out.new.items ≡ out.old.items ++ spec.line 0 (spec.header_text p.now)) }
{
    if has_no_fence(p) {
        push(out, b"il 1\n")
    } else {
        push(out, b"il 2\n")
    }
}

/// Writes the canonical text of a program at the end of what was written before.
#[tactic(auto, unfolding(il_syntax::specs::Text::program_text))]
pub fn push_program(out: &mut Vec<u8>, p: &Program) -> Result<(), NoMemory>
    ensures { OnOk result (out.new.items ≡ out.old.items ++ spec.program_text p.now) }
{
    push_header(out, p)?;
    push_locations(out, b"na", p.na.as_slice())?;
    push_locations(out, b"atomic", p.atomic.as_slice())?;
    push_functions(out, p, p.functions.as_slice())?;
    push_threads(out, p, p.threads.as_slice())
}

/// The canonical text of a program, well-formed or not: a number that stands for nothing is written
/// as an empty name.
pub fn print(alloc: Global, p: &Program) -> Result<Bytes, NoMemory>
    ensures { IfOk result (λ bytes. bytes ≡ spec.program_text p.now) }
{
    let mut bytes = Vec::new(alloc);
    push_program(&mut bytes, p)?;
    Ok(Bytes { bytes })
}
