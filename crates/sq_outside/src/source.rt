//! Reading: what a source is, and reading one to its end.
ghost use Rattle.std.specs.Prelude.{ℕ, ◌+◌, ◌^◌, ◌<◌, ◌≤◌, List, Option, length, IfOk, OnErr, IsErrOf};
ghost use Rattle.std.specs.Io.KnownBytes.{ReadConsumes};
ghost use Rattle.sq_outside.specs.Faults.{FailsWithCause, Rose};
ghost use Rattle.sq_outside.specs.Source.{ConsumesAll, ConsumesLimitAndOne, ConsumesAtMost, ConsumesPrefix};

use crate::Failed;
use std::alloc::Global;
use values_undef::Bytes;

/// A source of bytes.
pub trait Source {
    /// The bytes that are left, where the source tells them.
    ghost left: { Self → Option (List ℕ) };

    /// How often the source has failed; a count that stands at 2^64 - 1 counts as risen.
    ghost faults: { Self → ℕ };

    /// Takes the next bytes into the first places of the slice, and says how many.
    /// `Ok(0)` for a slice that is not empty is the end of the input. After [`Failed`] nothing was taken.
    fn take(&mut self, into: &mut [u8]) -> Result<usize, Failed>
        ensures bound { IfOk result (λ n. n ≤ length into.new) }
        ensures bytes { ReadConsumes (left self.old) (left self.new) result into.new }
        ensures cause { FailsWithCause (faults self.old) (faults self.new) result };
}

/// Why a source was not read to its end.
#[derive(Clone, Copy, Debug, PartialEq, Eq)]
pub enum ReadFault {
    /// The source failed.
    Failed,
    /// The source had more bytes than the limit.
    TooLong,
    /// Memory ran out.
    NoMemory,
}

/// Takes all that is left, up to the limit in bytes, which has to be below 2^32.
///
/// [`ReadFault::TooLong`] comes exactly where one byte more than the limit was taken, and [`ReadFault::Failed`] only
/// where the source's faults rose, with at most the limit taken. After any fault the first bytes of what was left are
/// gone from the source.
pub fn read_all<S: Source>(alloc: Global, source: &mut S, limit: u64) -> Result<Bytes, ReadFault>
    requires { limit < 2 ^ 32 }
    ensures all { IfOk result (ConsumesAll (S.left source.old) (S.left source.new) limit) }

    ensures too_long { IsErrOf result ReadFault.TooLong → ConsumesLimitAndOne (S.left source.old) (S.left source.new) limit }
    ensures failed { IsErrOf result ReadFault.Failed → Rose (S.faults source.old) (S.faults source.new) }
    ensures failed_within { IsErrOf result ReadFault.Failed → ConsumesAtMost (S.left source.old) (S.left source.new) limit }
    ensures prefix { OnErr result (ConsumesPrefix (S.left source.old) (S.left source.new)) }

    ensures later { S.faults source.old ≤ S.faults source.new }
{
    let most = limit as usize;
    let mut buffer = [0u8; 4096];
    let mut bytes = Vec::new(alloc);
    for turn in 0..most + 2 {
        let room = (most + 1 - bytes.len()).min(buffer.len());
        let count = match source.take(&mut buffer[..room]) {
            Ok(count) => count,
            Err(Failed) => return Err(ReadFault::Failed),
        };
        if count == 0 {
            return Ok(Bytes { bytes });
        }
        if bytes.extend_from_slice(&buffer[..count]).is_err() {
            return Err(ReadFault::NoMemory);
        }
        if bytes.len() > most {
            return Err(ReadFault::TooLong);
        }
    }
    // Each turn but the last takes a byte, and a byte past the limit ends the loop.
    unreachable!()
}
