//! A source and a sink that never fail: over them no answer can come of a fault outside.
ghost use Rattle.std.specs.Prelude.{◌≡◌, ◌<◌, ◌≤◌, None, Some, ◌++◌, length, drop, take, min, IfOk, IsOk};
ghost use Rattle.std.specs.Io.KnownBytes.{ReadConsumes, WriteAppends};
ghost use Rattle.sq_outside.specs.Faults.{FailsWithCause};

use crate::memory::copy_prefix;
use crate::{Failed, Sink, Source};
use std::marker::Model;
use values_undef::Bytes;

/// Bytes in memory, given as they are asked for. Contracts see what is left. It has no fault.
#[derive(Drop)]
pub struct SureSource {
    bytes: Vec<u8>,
    at: usize,
}

impl Model for SureSource {
    ghost use Rattle.std.specs.Prelude.{List, ℕ, ◌≤◌, length, drop};

    ghost Value = { List ℕ };

    ghost view = { λ s. drop s.at s.bytes.items };

    ghost invariant = { λ s. s.at ≤ length s.bytes.items };
}

impl SureSource {
    /// A source that has these bytes left.
    pub fn new(bytes: Bytes) -> SureSource
        ensures { result ≡ bytes }
    {
        let Bytes { bytes } = bytes;
        SureSource { bytes, at: 0 }
    }
}

impl Source for SureSource {
    ghost left = { λ left. Some left };

    ghost faults = { λ left. 0 };

    /// Gives as much as is left and fits. It never fails.
    fn take(&mut self, into: &mut [u8]) -> Result<usize, Failed>
        ensures bound { IfOk result (λ n. n ≤ length into.new) }
        ensures bytes { ReadConsumes (Some self.old) (Some self.new) result into.new }
        ensures cause { FailsWithCause 0 0 result }

        ensures sure { IsOk result }
        ensures count { IfOk result (λ n. n ≡ min (length self.old) (length into.old)) }
        ensures given { IfOk result (λ n. into.new ≡ take n self.old ++ drop n into.old) }
        ensures after { IfOk result (λ n. self.new ≡ drop n self.old) }
    {
        let (_, rest) = self.bytes.split_at(self.at);
        let count = copy_prefix(rest, rest.len(), into);
        self.at += count;
        Ok(count)
    }
}

/// Takes every piece whole, keeps nothing, and so tells nothing of what was written. It has no fault.
#[derive(Clone, Copy, Default, PartialEq, Eq)]
pub struct SureSink;

impl SureSink {
    /// A sink that takes everything.
    pub fn new() -> SureSink {
        SureSink
    }
}

impl Sink for SureSink {
    ghost written = { λ sink. None };

    ghost faults = { λ sink. 0 };

    /// Takes all of the bytes. It never fails.
    fn put(&mut self, bytes: &[u8]) -> Result<usize, Failed>
        ensures bound { IfOk result (λ n. n ≤ length bytes.now) }
        ensures some { IfOk result (λ n. 0 < length bytes.now → 0 < n) }
        ensures bytes { WriteAppends None None result bytes.now }
        ensures cause { FailsWithCause 0 0 result }

        ensures sure { IsOk result }
        ensures count { IfOk result (λ n. n ≡ length bytes.now) }
    {
        Ok(bytes.len())
    }
}
