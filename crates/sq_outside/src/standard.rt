//! A source over any reader of `std`, and a sink over any writer: the trusted edge of a program.
//!
//! No contract can say what a terminal or a file gives or takes. So these two tell nothing of content; what is proved
//! of them is that they keep the traits' rules and count their faults.
ghost use Rattle.std.specs.Prelude.{◌≡◌, ◌<◌, ◌≤◌, None, length, IfOk, MatchResult};
ghost use Rattle.std.specs.Io.KnownBytes.{ReadConsumes, WriteAppends};
ghost use Rattle.sq_outside.specs.Faults.{FailsWithCause, next_count};

use crate::faults::next_count;
use crate::{Failed, Sink, Source};
use std::io::{Read, Write};
use std::marker::Model;

/// Any reader, with a count of its errors, which is all that contracts see.
#[derive(Drop)]
pub struct StdSource<R> {
    inner: R,
    faults: u64,
}

impl<R> Model for StdSource<R> {
    ghost use Rattle.std.specs.Prelude.{ℕ};

    ghost Value = { ℕ };

    ghost view = { λ s. s.faults };
}

impl<R: Read> StdSource<R> {
    /// A source over this reader, with no fault yet.
    pub fn new(inner: R) -> StdSource<R>
        ensures { result ≡ 0 }
    {
        StdSource { inner, faults: 0 }
    }
}

impl<R: Read> Source for StdSource<R> {
    ghost left = { λ _. None };

    ghost faults = { λ count. count };

    /// Fails exactly where the reader answers an error, and counts it.
    fn take(&mut self, into: &mut [u8]) -> Result<usize, Failed>
        ensures bound { IfOk result (λ n. n ≤ length into.new) }
        ensures bytes { ReadConsumes None None result into.new }
        ensures cause { FailsWithCause self.old self.new result }

        ensures count { MatchResult result (λ n. self.new ≡ self.old) (λ e. self.new ≡ next_count self.old) }
    {
        match self.inner.read(into) {
            Ok(count) => Ok(count),
            Err(_) => {
                self.faults = next_count(self.faults);
                Err(Failed)
            }
        }
    }
}

/// Any writer, with a count of its errors and of the times that it took none of some bytes, which is all that
/// contracts see.
#[derive(Drop)]
pub struct StdSink<W> {
    inner: W,
    faults: u64,
}

impl<W> Model for StdSink<W> {
    ghost use Rattle.std.specs.Prelude.{ℕ};

    ghost Value = { ℕ };

    ghost view = { λ s. s.faults };
}

impl<W: Write> StdSink<W> {
    /// A sink over this writer, with no fault yet.
    pub fn new(inner: W) -> StdSink<W>
        ensures { result ≡ 0 }
    {
        StdSink { inner, faults: 0 }
    }
}

impl<W: Write> Sink for StdSink<W> {
    ghost written = { λ _. None };

    ghost faults = { λ count. count };

    /// Fails exactly where the writer answers an error, or takes none of some bytes, and counts it.
    fn put(&mut self, bytes: &[u8]) -> Result<usize, Failed>
        ensures bound { IfOk result (λ n. n ≤ length bytes.now) }
        ensures some { IfOk result (λ n. 0 < length bytes.now → 0 < n) }
        ensures bytes { WriteAppends None None result bytes.now }
        ensures cause { FailsWithCause self.old self.new result }

        ensures count { MatchResult result (λ n. self.new ≡ self.old) (λ e. self.new ≡ next_count self.old) }
    {
        match self.inner.write(bytes) {
            Ok(count) if count > 0 || bytes.is_empty() => Ok(count),
            _ => {
                self.faults = next_count(self.faults);
                Err(Failed)
            }
        }
    }
}
