//! `check`: whether a text is a program.
ghost use Rattle.std.specs.Prelude.{◌<◌, ◌-◌, ◌^◌, length, IfOk};
ghost use Rattle.tool.specs.Check.{IsCheckOutput};

use crate::answer::{Output, text_refused, written};
use crate::status::Status;
use il_parser::parse;
use std::alloc::Global;
use values_undef::NoMemory;

/// The output of `check` for this input.
pub(crate) fn output(alloc: Global, input: &[u8]) -> Result<Output, NoMemory>
    requires { length input.now < 2 ^ 32 - 1 }
    ensures { IfOk result (λ o. IsCheckOutput input.now o.bytes.items o.status) }
{
    match parse(alloc, input) {
        Ok(_) => written(alloc, "ok\n", Status::Done),
        Err(fault) => text_refused(alloc, input, fault),
    }
}
