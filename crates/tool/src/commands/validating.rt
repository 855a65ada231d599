//! `validate`: whether the functions of one program may stand for those of another.
ghost use Rattle.std.specs.Prelude.{◌≡◌, ◌<◌, ◌-◌, ◌^◌, length, IfOk};
ghost use Rattle.il_syntax.specs.WellFormed.{IsWellFormed};
ghost use Rattle.tool.specs.Validate.{fault_word, refused_function_line, IsPairVerdict, IsValidateOutput};
ghost use Rattle.tool.specs.declared.status.Status.TheVariants as status;

use crate::answer::{Output, refused, written};
use crate::status::Status;
use flow_summary::Summed;
use il_parser::InputFault;
use il_syntax::Program;
use pair_text::read_pair;
use std::alloc::Global;
use validator::{Fault, Verdict, validate_programs};
use values_undef::NoMemory;

fn fault_word(why: Fault) -> &'static str
    ensures { result.now ≡ fault_word why }
{
    match why {
        Fault::V1 => "V1",
        Fault::V2 => "V2",
        Fault::V3 => "V3",
        Fault::V4 => "V4",
        Fault::V5 => "V5",
        Fault::V6 => "V6",
        Fault::V7 => "V7",
    }
}

/// The output for a function that is refused.
pub(super) fn function_refused(
    alloc: Global,
    function: usize,
    site: u32,
    why: Fault,
) -> Result<Output, NoMemory>
    ensures { IfOk result (λ o. (o.bytes.items ≡ refused_function_line function site why) × (o.status ≡ status.No)) }
{
    let text = format!(in alloc; "refused {function} {site} {}\n", fault_word(why))?;
    written(alloc, text.as_str(), Status::No)
}

/// The output for two programs.
fn judged(alloc: Global, source: &Program, target: &Program) -> Result<Output, NoMemory>
    requires source { IsWellFormed source.now }
    requires target { IsWellFormed target.now }
    ensures { IfOk result (λ o. IsPairVerdict source.now target.now o.bytes.items o.status) }
{
    match validate_programs(alloc, &Summed, source, target)? {
        Verdict::OtherShape => written(alloc, "refused shape\n", Status::No),
        Verdict::Refused {
            function,
            site,
            why,
        } => function_refused(alloc, function, site, why),
        Verdict::Accepted => written(alloc, "accepted\n", Status::Done),
    }
}

/// The output of `validate` for this input.
pub(crate) fn output(alloc: Global, input: &[u8]) -> Result<Output, NoMemory>
    requires { length input.now < 2 ^ 32 - 1 }
    ensures { IfOk result (λ o. IsValidateOutput input.now o.bytes.items o.status) }
{
    match read_pair(alloc, input) {
        Ok(pair) => judged(alloc, &pair.source, &pair.target),
        Err(InputFault::Refused { rule, line, column }) => refused(
            alloc,
            rule.word(),
            line,
            column,
        ),
        Err(InputFault::NoMemory) => Err(NoMemory),
    }
}
