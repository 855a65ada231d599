//! `opt`: the optimised program.
ghost use Rattle.std.specs.Prelude.{◌<◌, ◌-◌, ◌^◌, length, IfOk};
ghost use Rattle.tool.specs.Opt.{IsOptOutput};

use crate::answer::{Output, text_refused};
use crate::status::Status;
use il_parser::parse;
use il_printer::print;
use reports::{optimised, target};
use std::alloc::Global;
use std::thread::Threads;
use values_undef::NoMemory;

/// The output of `opt` for this input.
pub(crate) fn output<R: Threads + Sync>(
    alloc: Global,
    rt: &R,
    input: &[u8],
) -> Result<Output, NoMemory>
    requires { length input.now < 2 ^ 32 - 1 }
    ensures { IfOk result (λ o. IsOptOutput input.now o.bytes.items o.status) }
{
    let p = match parse(alloc, input) {
        Ok(p) => p,
        Err(fault) => return text_refused(alloc, input, fault),
    };
    let chain = optimised(alloc, rt, &p)?;
    let text = print(alloc, target(&chain))?;
    Ok(Output {
        bytes: text.bytes,
        status: Status::Done,
    })
}
