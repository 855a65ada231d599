//! The text of a report, with how its run ends.
ghost use Rattle.std.specs.Prelude.{IfOk};
ghost use Rattle.std.specs.Option.{option_map_or};
ghost use Rattle.il_syntax.specs.WellFormed.{IsWellFormed};
ghost use Rattle.reports.specs.Runs.{IsWritten};

use il_syntax::Program;
use journal_text::report;
use std::alloc::Global;
use values_undef::{Bytes, Ending, Journal, NoMemory, ending_of};

/// A report, and how its run ends.
#[derive(Drop)]
pub struct Report {
    pub bytes: Vec<u8>,
    pub ending: Ending,
}

/// The report of a run of a target, with the source journal that it was lifted to; that is the journal itself where
/// there is none.
pub fn written(
    alloc: Global,
    target: &Program,
    journal: &Journal,
    source: Option<&Journal>,
) -> Result<Report, NoMemory>
    requires { IsWellFormed target.now }
    ensures { IfOk result (λ r. IsWritten target.now journal.now (option_map_or (λ s. s.now) source.entry journal.now) r.bytes.items r.ending) }
{
    let threads = target.threads.len() as u32;
    let Bytes { bytes } = report(alloc, target, journal, source, threads)?;
    Ok(Report {
        bytes,
        ending: ending_of(journal, threads),
    })
}
