//! Whether the functions of one program may stand for those of another.
ghost use Rattle.std.specs.Prelude.{◌≡◌, ◌≤◌, ◌<◌, ◌^◌, suc, length, IfOk, MatchOption, All};
ghost use Rattle.std.specs.List.{AllZip};
ghost use Rattle.il_syntax.specs.Statements.{site_count};
ghost use Rattle.il_syntax.specs.declared.program.Function.{Function};
ghost use Rattle.validator.specs.Faults.{Accepts};
ghost use Rattle.validator.specs.Programs.{IsFirstRefused, IsProgramVerdict};

use crate::fault::{Fault, Judged};
use crate::judge::validate;
use crate::shape::same_shape;
use flow_facts::Facts;
use il_syntax::{Function, Program};
use std::alloc::Global;
use values_undef::NoMemory;

/// What is answered of two programs: they have other shapes; the first function that isn't accepted, by its number
/// from 0, has this first fault; or all are accepted.
#[derive(Clone, Copy)]
pub enum Verdict {
    OtherShape,
    Refused {
        function: usize,
        site: u32,
        why: Fault,
    },
    Accepted,
}

/// A function that is refused, by its number, and its first fault.
#[derive(Clone, Copy)]
struct RefusedFunction {
    function: usize,
    site: u32,
    why: Fault,
}

/// The same where another function comes before.
fn one_later(found: RefusedFunction) -> RefusedFunction
    requires { found.function < 2 ^ 63 }
    ensures function { result.function ≡ suc found.function }
    ensures site { result.site ≡ found.site }
    ensures why { result.why ≡ found.why }
{
    RefusedFunction {
        function: found.function + 1,
        ..found
    }
}

/// The first function of the targets that is refused.
fn first_refused<F: Facts>(
    alloc: Global,
    facts: &F,
    sources: &[Function],
    targets: &[Function],
) -> Result<Option<RefusedFunction>, NoMemory>
    requires small { All (λ (g : Function). site_count g.body.statements ≤ 4096) targets.now }
    requires equal { length targets.now ≡ length sources.now }
    ensures { IfOk result (λ found. MatchOption found (AllZip Accepts sources.now targets.now)
        (λ x. (x.function < length sources.now) × IsFirstRefused sources.now targets.now x.function x.site x.why)) }
{
    match sources {
        [] => Ok(None),
        [f, more @ ..] => match targets {
            [] => Ok(None),
            [g, rest @ ..] => match validate(alloc, facts, f, g)? {
                Judged::No { site, why } => Ok(Some(RefusedFunction {
                    function: 0,
                    site,
                    why,
                })),
                Judged::Yes => match first_refused(alloc, facts, more, rest)? {
                    None => Ok(None),
                    Some(found) => Ok(Some(one_later(found))),
                },
            },
        },
    }
}

/// Whether the functions of the target may stand for those of the source: the programs have to have one shape, and
/// then the first function that isn't accepted is told with its first fault. Each function of the target has to have
/// at most 4096 statements. The only error is want of memory.
pub fn validate_programs<F: Facts>(
    alloc: Global,
    facts: &F,
    source: &Program,
    target: &Program,
) -> Result<Verdict, NoMemory>
    requires { All (λ (g : Function). site_count g.body.statements ≤ 4096) target.now.functions }
    ensures { IfOk result (λ verdict. IsProgramVerdict source.now target.now verdict) }
{
    if !same_shape(source, target) {
        return Ok(Verdict::OtherShape);
    }
    let sources = source.functions.as_slice();
    match first_refused(alloc, facts, sources, target.functions.as_slice())? {
        None => Ok(Verdict::Accepted),
        Some(found) => Ok(Verdict::Refused {
            function: found.function,
            site: found.site,
            why: found.why,
        }),
    }
}
