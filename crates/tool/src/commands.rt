//! What each command reads, and what it makes of it. A command has a module of its own, whose
//! function `output` makes the whole output from the whole input; its meaning stands in the file of
//! its name in `specs/`.
ghost use Rattle.std.specs.Prelude.{◌≡◌, IfOk};
ghost use Rattle.tool.specs.Commands.{limit_of, HasCondition, WaitsForNothing, IsOutputOf};
ghost use Rattle.tool.specs.Outputs.{IsWithinLimit};

mod checking;
mod exploring;
mod generating;
mod graphing;
mod optimising;
mod refuting;
mod replaying;
pub(crate) mod running;
mod sampling;
mod sequencing;
mod tidying;
mod validating;
mod walking;

use crate::answer::Output;
use std::alloc::Global;
use std::thread::Threads;
use values_undef::NoMemory;
use words::Command;

/// The most bytes of a program's text.
pub(crate) const TEXT_LIMIT: u64 = 1_048_576;

/// The most bytes that the input of a command may have; nothing where it reads none.
pub(crate) fn limit(command: &Command) -> Option<u64>
    ensures { result ≡ limit_of command.now }
{
    match command {
        Command::Check
        | Command::Opt
        | Command::Tidy { .. }
        | Command::Walk { .. }
        | Command::Run { .. }
        | Command::Litmus { .. }
        | Command::Outcomes { .. } => Some(TEXT_LIMIT),
        Command::Validate | Command::Seq { .. } | Command::Refute { .. } => Some(4_194_304),
        Command::Replay | Command::Graph => Some(134_217_728),
        Command::Gen { .. } => None,
    }
}

/// The output for an input that was read to its end, or for none where the command reads none. `run`, whose
/// threads wait for each other, has its output elsewhere.
pub(crate) fn output_of<R: Threads + Sync>(
    alloc: Global,
    rt: &R,
    command: &Command,
    input: &[u8],
) -> Result<Output, NoMemory>
    requires quiet { WaitsForNothing command.now }
    requires condition { HasCondition command.now }
    requires within { IsWithinLimit (limit_of command.now) input.now }
    ensures { IfOk result (λ o. IsOutputOf command.now input.now o.bytes.items o.status) }
{
    match command {
        Command::Check => checking::output(alloc, input),
        Command::Opt => optimising::output(alloc, rt, input),
        Command::Tidy {
            order,
            draws,
            steps,
        } => tidying::output(alloc, rt, order.turns.as_slice(), draws, *steps, input),
        Command::Validate => validating::output(alloc, input),
        Command::Seq { function } => sequencing::output(alloc, function.as_slice(), input),
        Command::Walk {
            order,
            draws,
            steps,
        } => walking::output(alloc, rt, order.turns.as_slice(), draws, *steps, input),
        Command::Run { .. } => unreachable!(),
        Command::Replay => replaying::output(alloc, input),
        Command::Graph => graphing::output(alloc, input),
        Command::Litmus { seed, seeds, steps } => {
            sampling::output(alloc, rt, *seed, *seeds, *steps, input)
        }
        Command::Outcomes { steps, states } => exploring::output(alloc, *steps, *states, input),
        Command::Refute { steps, states } => refuting::output(alloc, *steps, *states, input),
        Command::Gen {
            number,
            functions,
            form,
        } => generating::output(alloc, rt, *number, *functions, *form),
    }
}
