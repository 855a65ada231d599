//! What the passes did, in numbers.
ghost use Rattle.std.specs.Prelude.{◌≡◌, ◌<◌, ◌≤◌, ◌*◌, ◌^◌, length, map, sum, count_by, All};
ghost use Rattle.il_syntax.specs.declared.program.Function.{Function};
ghost use Rattle.il_syntax.specs.WellFormed.{IsWellFormed};
ghost use Rattle.il_syntax.specs.Statements.{head_of, heads_of, heads_of_all, site_count};
ghost use Rattle.pass_chain.specs.Counts as spec;
ghost use Rattle.pass_chain.specs.Laws.{AreWellFormed};

use crate::chains::ProgramChain;
use il_syntax::{Function, Program, Stmt, sites};

/// What the passes did to a program: how many functions and statements it had, how many loads both kinds of
/// forwarding turned into copies, how many loads were put before loops, and how many stores were removed.
#[derive(Clone, Copy)]
pub struct Counts {
    pub functions: u64,
    pub statements: u64,
    pub forwarded: u64,
    pub introduced: u64,
    pub removed: u64,
}

/// Statements that are counted: accesses of non-atomic locations.
#[derive(Clone, Copy)]
pub enum Counted {
    Loads,
    Stores,
}

/// Whether the statement is counted.
fn is_counted(statement: &Stmt, counted: Counted) -> bool
    ensures { result ≡ spec.is_counted counted (head_of statement.now) }
{
    match (counted, statement) {
        (Counted::Loads, Stmt::Load { .. }) | (Counted::Stores, Stmt::Store { .. }) => true,
        _ => false,
    }
}

#[cycle(counts)]
fn count_in(statements: &[Stmt], counted: Counted) -> u64
    requires few { site_count statements.now < 2 ^ 32 }
    ensures { result ≡ count_by (spec.is_counted counted) (heads_of_all statements.now) }
{
    let mut count = 0;
    for statement in statements {
        count += count_at(statement, counted);
    }
    count
}

#[cycle(counts)]
fn count_at(statement: &Stmt, counted: Counted) -> u64
    requires few { length (heads_of statement.now) < 2 ^ 32 }
    ensures { result ≡ count_by (spec.is_counted counted) (heads_of statement.now) }
{
    match statement {
        Stmt::If { yes, no, .. } => {
            count_in(yes.statements.as_slice(), counted)
                + count_in(no.statements.as_slice(), counted)
        }
        Stmt::While { body, .. } => count_in(body.statements.as_slice(), counted),
        _ => u64::from(is_counted(statement, counted)),
    }
}

/// Over all functions.
fn count_all(functions: &[Function], counted: Counted) -> u64
    requires few { length functions.now ≤ 256 }
    requires small { All (λ (f : Function). site_count f.body.statements ≤ 4096) functions.now }
    ensures value { result ≡ sum (map (λ (f : Function). count_by (spec.is_counted counted) (heads_of_all f.body.statements)) functions.now) }
    ensures bound { result ≤ 4096 * length functions.now }
{
    let mut count = 0;
    for f in functions {
        count += count_in(f.body.statements.as_slice(), counted);
    }
    count
}

/// The statements of all functions.
fn count_sites(functions: &[Function]) -> u64
    requires few { length functions.now ≤ 256 }
    requires small { All (λ (f : Function). site_count f.body.statements ≤ 4096) functions.now }
    ensures value { result ≡ sum (map (λ (f : Function). site_count f.body.statements) functions.now) }
    ensures bound { result ≤ 4096 * length functions.now }
{
    let mut count = 0;
    for f in functions {
        count += u64::from(sites(f));
    }
    count
}

/// What the passes did to a program, of its five well-formed programs.
pub fn count(c: &ProgramChain) -> Counts
    requires { AreWellFormed c.now }
    ensures { result ≡ spec.counts_of c.now }
{
    let stored = count_program(&c.stored, Counted::Loads);
    let loaded = count_program(&c.loaded, Counted::Loads);
    let from_stores = count_program(&c.source, Counted::Loads).saturating_sub(stored);
    let from_loads = count_program(&c.introduced, Counted::Loads).saturating_sub(loaded);
    let kept = count_program(&c.undead, Counted::Stores);
    Counts {
        functions: c.source.functions.len() as u64,
        statements: count_statements(&c.source),
        forwarded: from_stores + from_loads,
        introduced: count_statements(&c.introduced).saturating_sub(count_statements(&c.stored)),
        removed: count_program(&c.loaded, Counted::Stores).saturating_sub(kept),
    }
}

/// The counted statements of a well-formed program.
#[tactic(auto, using(crate::proofs::CountLaws::small_functions, crate::proofs::CountLaws::few_functions))]
fn count_program(p: &Program, counted: Counted) -> u64
    requires { IsWellFormed p.now }
    ensures value { result ≡ spec.accesses counted p.now }
    ensures bound { result ≤ 2 ^ 20 }
{
    count_all(p.functions.as_slice(), counted)
}

/// All statements of a well-formed program.
#[tactic(auto, using(crate::proofs::CountLaws::small_functions, crate::proofs::CountLaws::few_functions))]
fn count_statements(p: &Program) -> u64
    requires { IsWellFormed p.now }
    ensures value { result ≡ spec.statements_of_program p.now }
    ensures bound { result ≤ 2 ^ 20 }
{
    count_sites(p.functions.as_slice())
}
