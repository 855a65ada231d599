//! The program of a number.
ghost use Rattle.std.specs.Prelude.{◌≡◌, ◌≤◌, ◌%◌, IfOk, OnOk};
ghost use Rattle.il_syntax.specs.WellFormed.{IsWellFormed};
ghost use Rattle.gen_program.specs.Generated.{draws, function_of, functions_from, threads_of, generator_of, generated};

use crate::draw::draw_body;
use crate::names::{locations, names, numbered};
use il_syntax::{Atom, Block, Function, Functions, Program, Start, Starts};
use rand_pcg::Lcg64Xsh32;
use sqlite_items::Items;
use std::alloc::Global;
use values_undef::NoMemory;

/// The stream of the generator.
const STREAM: u64 = 1000;

/// The function of this number. Its own location is the number modulo 4.
fn make_function(
    alloc: Global,
    number: u32,
    generator: &mut Lcg64Xsh32,
) -> Result<Function, NoMemory>
    ensures function { IfOk result (λ f. f ≡ function_of number (draws 64 (number % 4) generator.old).statements) }
    ensures generator { OnOk result (generator.new ≡ (draws 64 (number % 4) generator.old).generator) }
{
    let statements = draw_body(alloc, number % 4, generator)?;
    Ok(Function {
        name: numbered(alloc, b'f', number)?,
        params: 0,
        registers: names(alloc, b'r', 5)?,
        body: Block { statements },
        result: Atom::Const(0),
    })
}

/// So many functions, by the words of the generator.
fn make_functions(
    alloc: Global,
    count: u32,
    mut generator: Lcg64Xsh32,
) -> Result<Functions, NoMemory>
    ensures { IfOk result (λ functions. functions ≡ functions_from count 0 generator) }
{
    let mut functions = Items::new(alloc);
    for number in 0..count {
        functions.push(make_function(alloc, number, &mut generator)?)?;
    }
    Ok(functions)
}

/// So many threads, each of the function of its number.
#[tactic(auto, using(crate::proofs::Steps::more_threads))]
fn make_threads(alloc: Global, count: u32) -> Result<Starts, NoMemory>
    ensures { IfOk result (λ threads. threads ≡ threads_of count) }
{
    let mut threads = Items::new(alloc);
    for function in 0..count {
        threads.push(Start {
            function,
            args: Items::new(alloc),
        })?;
    }
    Ok(threads)
}

/// The program of the number with so many functions, from 1 to 256. It is well-formed, and the same at each
/// call. The only error is want of memory.
pub fn generate(alloc: Global, number: u64, functions: u32) -> Result<Program, NoMemory>
    requires { (1 ≤ functions) × (functions ≤ 256) }
    ensures program { IfOk result (λ p. p ≡ generated number functions) }
    ensures well_formed { IfOk result IsWellFormed }
{
    let generator = Lcg64Xsh32::new(number, STREAM);
    Ok(Program {
        na: locations(alloc, b'x', 4)?,
        atomic: locations(alloc, b'a', 2)?,
        functions: make_functions(alloc, functions, generator)?,
        threads: make_threads(alloc, functions.min(4))?,
    })
}
