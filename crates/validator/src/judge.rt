//! Whether a function is an accepted target of another.
ghost use Rattle.std.specs.Prelude.{◌≡◌, ◌≤◌, length, IfOk};
ghost use Rattle.il_syntax.specs.Statements.{site_count};
ghost use Rattle.validator.specs.Faults.{begins, same_heads, new_registers, FaultAt, IsJudgedBy, IsJudged};
ghost use Rattle.validator.specs.Merged.{merged};

use crate::fault::{Fault, Judged};
use crate::merged::{Parts, merged_function};
use crate::pending::pending_of;
use crate::told::{first_fault, list_needs};
use crate::walk::{NewRegisters, walk_block};
use flow_facts::{Facts, Kind};
use il_syntax::{Function, Name};
use std::alloc::Global;
use values_undef::NoMemory;

/// Whether the names begin with the old ones.
#[tactic(auto, using(crate::proofs::ShapeLaws::begins_none))]
fn begins(old: &[Name], names: &[Name]) -> bool
    ensures { result ≡ begins old.now names.now }
{
    match old {
        [] => true,
        [a, more @ ..] => match names {
            [] => false,
            [b, rest @ ..] => a.as_slice() == b.as_slice() && begins(more, rest),
        },
    }
}

/// Whether names, parameter counts and results are equal, and the target has the source's registers, and
/// then its own.
fn same_heads(f: &Function, g: &Function) -> bool
    ensures { result ≡ same_heads f.now g.now }
{
    f.name.as_slice() == g.name.as_slice()
        && f.params == g.params
        && begins(f.registers.as_slice(), g.registers.as_slice())
        && f.result == g.result
}

fn new_registers(f: &Function, g: &Function) -> NewRegisters
    ensures { result ≡ new_registers f.now g.now }
{
    NewRegisters {
        first: f.registers.len(),
        end: g.registers.len(),
    }
}

/// Whether g is an accepted target of f, or its first fault: a statement without a partner and other heads
/// come first, then what is at the lowest site, and there what has the lowest number. The target has to
/// have at most 4096 statements.
///
/// What makes a target accepted is said by the definitions `Accepts` and `IsFirstFault`, over all paths. The
/// conditions are this project's own; translation validation is that of Pnueli, Siegel and Singerman
/// ("Translation validation", TACAS 1998).
pub fn validate<F: Facts>(
    alloc: Global,
    facts: &F,
    f: &Function,
    g: &Function,
) -> Result<Judged, NoMemory>
    requires { site_count g.now.body.statements ≤ 4096 }
    ensures { IfOk result (λ judged. IsJudged f.now g.now judged) }
{
    let list = Vec::new(alloc);
    let mut parts = Parts { list };
    let whole = walk_block(new_registers(f, g), &f.body, &g.body, &mut parts.list)?;
    let site = parts.list.len() as u32;
    let apart = Judged::No {
        site,
        why: Fault::V1,
    };
    if !whole {
        return Ok(apart);
    }
    if !same_heads(f, g) {
        return Ok(apart);
    }
    judge_walked(alloc, facts, g, &parts)
}

/// The judgement of a target that was walked to its end.
fn judge_walked<F: Facts>(
    alloc: Global,
    facts: &F,
    g: &Function,
    parts: &Parts,
) -> Result<Judged, NoMemory>
    requires small { site_count g.now.body.statements ≤ 4096 }
    requires whole { length parts.now.list.items ≡ site_count g.now.body.statements }
    ensures { IfOk result (λ judged. IsJudgedBy (FaultAt (merged g.now parts.now.list.items) parts.now.list.items) judged) }
{
    let merged = merged_function(alloc, parts, g)?;
    let table = facts.before(alloc, &merged, Kind::Both)?;
    let pending = pending_of(alloc, parts.list.as_slice(), &merged.body)?;
    let mut needs = Vec::new(alloc);
    list_needs(&merged.body, &mut needs)?;
    let count = needs.len() as u32;
    Ok(first_fault(
        &table,
        parts.list.as_slice(),
        needs.as_slice(),
        &pending,
        count,
    ))
}
