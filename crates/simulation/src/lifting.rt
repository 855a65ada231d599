//! Lifting: a run of an accepted target becomes a run of its source.
ghost use Rattle.std.specs.Prelude.{◌≡◌, ◌≤◌, IfOk, IsTrue, All};
ghost use Rattle.std.specs.List.{AllZip};
ghost use Rattle.il_syntax.specs.Statements.{site_count};
ghost use Rattle.il_syntax.specs.WellFormed.{IsWellFormed};
ghost use Rattle.validator.specs.Faults.{Accepts};
ghost use Rattle.view_machine.specs.Runs.{IsJournalRun};
ghost use Rattle.refinement.specs.Playings.{AreFew};
ghost use Rattle.simulation.specs.Conditions.{IsAcceptedTarget, IsLifted, have_equal_counts, has_new_registers};
ghost use Rattle.simulation.specs.Chain.{AreAcceptedTargets, lift_or};

use equal_programs::equal_programs;
use flow_facts::Facts;
use il_syntax::{Function, Program};
use message_memory::MessageMemory;
use pass_chain::ProgramChain;
use refinement::play;
use std::alloc::Global;
use validator::{Judged, same_shape, validate};
use values_undef::{Journal, NoMemory};

/// From how many entries on a lift costs more than asking the validator.
const LONG: usize = 1024;

fn have_equal_counts(source: &[Function], target: &[Function]) -> bool
    ensures { result ≡ have_equal_counts source.now target.now }
{
    match source {
        [] => true,
        [f, source @ ..] => match target {
            [] => true,
            [g, target @ ..] => {
                f.registers.len() == g.registers.len() && have_equal_counts(source, target)
            }
        },
    }
}

/// Whether some function of the target has registers of its own, beside those of the source's.
fn has_new_registers(source: &Program, target: &Program) -> bool
    ensures { result ≡ has_new_registers source.now target.now }
{
    !have_equal_counts(source.functions.as_slice(), target.functions.as_slice())
}

/// Lifts a journal of an accepted target to its source: the answer is a run of the source that the journal
/// refines. It has the same outputs and ending, or fails after a beginning of the outputs. Where no function
/// of the target has registers of its own and the answer ends in no failure, each thread has used as many
/// steps. The journal may be of any threads of the program, in any order, finished or not, if no thread has
/// used 2^40 steps. The only error is want of memory.
pub fn lift<M: MessageMemory>(
    alloc: Global,
    source: &Program,
    target: &Program,
    j: &Journal,
) -> Result<Journal, NoMemory>
    requires accepted { IsAcceptedTarget source.now target.now }
    requires run { IsJournalRun target.now j.now }
    requires few { AreFew j.now }
    ensures { IfOk result (λ js. IsLifted source.now target.now j.now js) }
{
    let news = has_new_registers(source, target);
    play::<M>(alloc, source, j, news)
}

/// Lifts further what a journal was lifted to so far, or the journal itself where that is none: from an accepted
/// target to its source. Where the programs are equal that is its own lift.
fn lift_further<M: MessageMemory>(
    alloc: Global,
    source: &Program,
    target: &Program,
    j: &Journal,
    so_far: Option<Journal>,
) -> Result<Option<Journal>, NoMemory>
    requires accepted { IsAcceptedTarget source.now target.now }
    requires run { IsJournalRun target.now (lift_or j.now so_far) }
    requires few { AreFew (lift_or j.now so_far) }
    ensures { IfOk result (λ o. IsLifted source.now target.now (lift_or j.now so_far) (lift_or j.now o)) }
{
    if equal_programs(source, target) {
        return Ok(so_far);
    }
    match so_far {
        Some(lifted) => Ok(Some(lift::<M>(alloc, source, target, &lifted)?)),
        None => Ok(Some(lift::<M>(alloc, source, target, j)?)),
    }
}

/// Whether each function of the target is an accepted target of the source's.
fn are_accepted<F: Facts>(
    alloc: Global,
    facts: &F,
    sources: &[Function],
    targets: &[Function],
) -> Result<bool, NoMemory>
    requires small { All (λ (g : Function). site_count g.body.statements ≤ 4096) targets.now }
    ensures { IfOk result (λ accepted. IsTrue accepted → AllZip Accepts sources.now targets.now) }
{
    match sources {
        [] => match targets {
            [] => Ok(true),
            [_, ..] => Ok(false),
        },
        [f, more @ ..] => match targets {
            [] => Ok(false),
            [g, rest @ ..] => match validate(alloc, facts, f, g)? {
                Judged::No { .. } => Ok(false),
                Judged::Yes => {
                    if !are_accepted(alloc, facts, more, rest)? {
                        return Ok(false);
                    }
                    Ok(true)
                }
            },
        },
    }
}

/// Whether the programs differ and the validator accepts the target, where the journal is so long that asking is
/// worth it. A lift at once over loads of the target's own answers with silent steps of the source earlier than lifts
/// one after the other do: both are right.
#[tactic(auto, using(pass_chain::proofs::Callers::small_functions))]
fn is_accepted<F: Facts>(
    alloc: Global,
    facts: &F,
    source: &Program,
    target: &Program,
    j: &Journal,
) -> Result<bool, NoMemory>
    requires source { IsWellFormed source.now }
    requires target { IsWellFormed target.now }
    ensures { IfOk result (λ accepted. IsTrue accepted → IsAcceptedTarget source.now target.now) }
{
    if j.entries.len() < LONG {
        return Ok(false);
    }
    if equal_programs(source, target) || !same_shape(source, target) {
        return Ok(false);
    }
    are_accepted(
        alloc,
        facts,
        source.functions.as_slice(),
        target.functions.as_slice(),
    )
}

/// Lifts further from the last of three programs to the first: at once where the validator accepts that, else
/// through the one between them.
fn lift_over<M: MessageMemory, F: Facts>(
    alloc: Global,
    facts: &F,
    first: &Program,
    middle: &Program,
    last: &Program,
    j: &Journal,
    so_far: Option<Journal>,
) -> Result<Option<Journal>, NoMemory>
    requires first { IsAcceptedTarget first.now middle.now }
    requires second { IsAcceptedTarget middle.now last.now }
    requires run { IsJournalRun last.now (lift_or j.now so_far) }
    requires few { AreFew (lift_or j.now so_far) }
    ensures { IfOk result (λ o. IsLifted first.now last.now (lift_or j.now so_far) (lift_or j.now o)) }
{
    if is_accepted(alloc, facts, first, last, j)? {
        return lift_further::<M>(alloc, first, last, j, so_far);
    }
    let of_middle = lift_further::<M>(alloc, middle, last, j, so_far)?;
    lift_further::<M>(alloc, first, middle, j, of_middle)
}

/// Lifts a journal of the last program of a chain to the first. The answer is a run of the source that the journal
/// refines: with the same outputs and ending, or one that fails after a beginning of the outputs. It is none where
/// the programs of the chain are equal: then the journal is its own lift. The only error is want of memory.
pub fn lift_chain<M: MessageMemory, F: Facts>(
    alloc: Global,
    facts: &F,
    c: &ProgramChain,
    j: &Journal,
) -> Result<Option<Journal>, NoMemory>
    requires accepted { AreAcceptedTargets c.now }
    requires run { IsJournalRun c.now.undead j.now }
    requires few { AreFew j.now }
    ensures { IfOk result (λ o. IsLifted c.now.source c.now.undead j.now (lift_or j.now o)) }
{
    if is_accepted(alloc, facts, &c.source, &c.undead, j)? {
        return lift_further::<M>(alloc, &c.source, &c.undead, j, None);
    }
    let of_introduced = lift_over::<M, F>(
        alloc,
        facts,
        &c.introduced,
        &c.loaded,
        &c.undead,
        j,
        None,
    )?;
    lift_over::<M, F>(
        alloc,
        facts,
        &c.source,
        &c.stored,
        &c.introduced,
        j,
        of_introduced,
    )
}
