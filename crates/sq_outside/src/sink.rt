//! Writing: what a sink is, and writing a whole text to one.
ghost use Rattle.std.specs.Prelude.{ℕ, ◌<◌, ◌≤◌, List, Option, length, IfOk, OnOk, OnErr};
ghost use Rattle.std.specs.Io.KnownBytes.{WriteAppends, Appends};
ghost use Rattle.sq_outside.specs.Faults.{FailsWithCause};
ghost use Rattle.sq_outside.specs.Sink.{AppendsPrefix};

use crate::Failed;

/// A sink of bytes.
pub trait Sink {
    /// The bytes that were written, where the sink tells them.
    ghost written: { Self → Option (List ℕ) };

    /// How often the sink has failed; a count that stands at 2^64 - 1 counts as risen.
    ghost faults: { Self → ℕ };

    /// Appends the first of these bytes, at least one where there are any, and says how many.
    /// After [`Failed`] nothing was appended.
    fn put(&mut self, bytes: &[u8]) -> Result<usize, Failed>
        ensures bound { IfOk result (λ n. n ≤ length bytes.now) }
        ensures some { IfOk result (λ n. 0 < length bytes.now → 0 < n) }
        ensures bytes { WriteAppends (written self.old) (written self.new) result bytes.now }
        ensures cause { FailsWithCause (faults self.old) (faults self.new) result };
}

/// Appends all of these bytes, in as many calls as the sink needs. It takes no memory.
///
/// [`Failed`] comes only where the sink's faults rose; then a prefix of the bytes was appended.
pub fn put_all<K: Sink>(sink: &mut K, bytes: &[u8]) -> Result<(), Failed>
    ensures all { OnOk result (Appends (K.written sink.old) (K.written sink.new) bytes.now) }
    ensures prefix { OnErr result (AppendsPrefix (K.written sink.old) (K.written sink.new) bytes.now) }
    ensures cause { FailsWithCause (K.faults sink.old) (K.faults sink.new) result }
{
    let mut at = 0;
    while at < bytes.len() {
        at += sink.put(&bytes[at..])?;
    }
    Ok(())
}
