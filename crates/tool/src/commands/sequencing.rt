//! `seq`: a function of a source and of its target, played together through the events of an environment.
ghost use Rattle.std.specs.Prelude.{◌<◌, ◌-◌, ◌^◌, length, IfOk};
ghost use Rattle.tool.specs.Seq.{IsSeqOutput, IsWrittenAnswer};

use crate::answer::{Output, refused, written};
use crate::commands::validating::function_refused;
use crate::status::Status;
use seq_session::{SeqAnswer, seq_answer};
use std::alloc::Global;
use values_undef::NoMemory;

/// What is written of an answer.
fn written_answer(alloc: Global, answer: SeqAnswer) -> Result<Output, NoMemory>
    ensures { IfOk result (λ o. IsWrittenAnswer answer o.bytes.items o.status) }
{
    match answer {
        SeqAnswer::Refused { rule, line, column } => refused(alloc, rule.word(), line, column),
        SeqAnswer::OtherShape => written(alloc, "refused shape\n", Status::No),
        SeqAnswer::RefusedFunction {
            function,
            site,
            why,
        } => function_refused(alloc, function as usize, site, why),
        SeqAnswer::Played { text } => Ok(Output {
            bytes: text.bytes,
            status: Status::Done,
        }),
    }
}

/// The output of `seq` for a function's name and this input.
pub(crate) fn output(alloc: Global, name: &[u8], input: &[u8]) -> Result<Output, NoMemory>
    requires { length input.now < 2 ^ 32 - 1 }
    ensures { IfOk result (λ o. IsSeqOutput name.now input.now o.bytes.items o.status) }
{
    let answer = seq_answer(alloc, input, name)?;
    written_answer(alloc, answer)
}
