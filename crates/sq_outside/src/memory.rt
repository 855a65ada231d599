//! A source and a sink in memory, which move a piece at a time and fail where they are told to.
ghost use Rattle.std.specs.Prelude.{◌≡◌, ◌<◌, ◌≤◌, ◌↔◌, ℕ, [], ◌++◌, Some, Contains, length, drop, take, min, IfOk, IsErr};
ghost use Rattle.std.specs.Io.KnownBytes.{ReadConsumes, WriteAppends};
ghost use Rattle.sq_outside.specs.Faults.{FailsWithCause, next_count};
ghost use Rattle.sq_outside.specs.Memory.{source_after, sink_after, taken_count, put_count, Refuses};

use crate::faults::next_count;
use crate::{Failed, Sink, Source};
use std::alloc::Global;
use std::marker::Model;
use values_undef::{Bytes, NoMemory};

/// Bytes in memory, given a piece at a time.
///
/// Contracts see what is left, the greatest piece in bytes, the numbers of the calls that fail, how many calls of
/// `take` there were and how many of them failed.
#[derive(Drop)]
pub struct MemSource {
    bytes: Vec<u8>,
    at: usize,
    piece: usize,
    failing: Vec<u64>,
    calls: u64,
    faults: u64,
}

impl Model for MemSource {
    ghost use Rattle.std.specs.Prelude.{◌≤◌, length, drop};
    ghost use Rattle.sq_outside.specs.MemoryValues.{MemSourceValue};

    ghost Value = { MemSourceValue };

    ghost view = { λ s. record { left = drop s.at s.bytes.items; piece = s.piece; failing = s.failing.items; calls = s.calls; faults = s.faults } };

    ghost invariant = { λ s. (s.at ≤ length s.bytes.items) × (1 ≤ s.piece) };
}

impl MemSource {
    /// A source that has these bytes left and gives at most `piece` of them a call.
    /// Its calls of `take` are numbered from 0, and those whose numbers are listed fail.
    pub fn new(bytes: Bytes, piece: usize, failing: Vec<u64>) -> MemSource
        requires { 1 ≤ piece }
        ensures { result ≡ record { left = bytes; piece = piece; failing = failing.items; calls = 0; faults = 0 } }
    {
        let Bytes { bytes } = bytes;
        MemSource {
            bytes,
            at: 0,
            piece,
            failing,
            calls: 0,
            faults: 0,
        }
    }
}

// Copies as much as there is and fits, up to a piece, and says how much.
pub(crate) fn copy_prefix(from: &[u8], piece: usize, into: &mut [u8]) -> usize
    ensures count { result ≡ min piece (min (length from.now) (length into.old)) }
    ensures copied { into.new ≡ take result from.now ++ drop result into.old }
{
    let count = piece.min(from.len().min(into.len()));
    into[..count].copy_from_slice(&from[..count]);
    count
}

impl Source for MemSource {
    ghost left = { λ s. Some s.left };

    ghost faults = { λ s. s.faults };

    /// Fails exactly where the call's number is listed. Otherwise it gives as much as is left and fits, up to a piece.
    fn take(&mut self, into: &mut [u8]) -> Result<usize, Failed>
        ensures bound { IfOk result (λ n. n ≤ length into.new) }
        ensures bytes { ReadConsumes (Some self.old.left) (Some self.new.left) result into.new }
        ensures cause { FailsWithCause self.old.faults self.new.faults result }

        ensures failed { IsErr result ↔ Contains self.old.failing self.old.calls }
        ensures count { IfOk result (λ n. n ≡ taken_count self.old (length into.old)) }
        ensures given { IfOk result (λ n. into.new ≡ take n self.old.left ++ drop n into.old) }
        ensures after { self.new ≡ source_after self.old result }
    {
        let call = self.calls;
        self.calls = next_count(self.calls);
        if self.failing.contains(&call) {
            self.faults = next_count(self.faults);
            return Err(Failed);
        }
        let (_, rest) = self.bytes.split_at(self.at);
        let count = copy_prefix(rest, self.piece, into);
        self.at += count;
        Ok(count)
    }
}

/// Bytes taken into memory, a piece at a time, up to a room that is reserved at the start.
///
/// Contracts see what was written, the room and the greatest piece in bytes, the numbers of the calls that fail, how
/// many calls of `put` there were and how many of them failed.
#[derive(Drop)]
pub struct MemSink {
    written: Vec<u8>,
    room: usize,
    piece: usize,
    failing: Vec<u64>,
    calls: u64,
    faults: u64,
}

impl Model for MemSink {
    ghost use Rattle.std.specs.Prelude.{◌≤◌, length, vec_capacity};
    ghost use Rattle.sq_outside.specs.MemoryValues.{MemSinkValue};

    ghost Value = { MemSinkValue };

    ghost view = { λ s. record { written = s.written.items; room = s.room; piece = s.piece; failing = s.failing.items; calls = s.calls; faults = s.faults } };

    ghost invariant = { λ s. (length s.written.items ≤ s.room) × (1 ≤ s.piece) × (s.room ≤ vec_capacity s.written) };
}

impl MemSink {
    /// A sink with room for so many bytes, which takes at most `piece` of them a call.
    /// Its calls of `put` are numbered from 0, and those whose numbers are listed fail.
    pub fn new(
        alloc: Global,
        room: usize,
        piece: usize,
        failing: Vec<u64>,
    ) -> Result<MemSink, NoMemory>
        requires { 1 ≤ piece }
        ensures { IfOk result (λ sink. sink ≡ record { written = []; room = room; piece = piece; failing = failing.items; calls = 0; faults = 0 }) }
    {
        Ok(MemSink {
            written: Vec::with_capacity(alloc, room)?,
            room,
            piece,
            failing,
            calls: 0,
            faults: 0,
        })
    }

    /// What was written.
    pub fn written(&self) -> &[u8]
        ensures { result.now ≡ self.now.written }
    {
        self.written.as_slice()
    }
}

impl Sink for MemSink {
    ghost written = { λ s. Some s.written };

    ghost faults = { λ s. s.faults };

    /// Fails exactly where the call's number is listed, or where there are bytes and the room is full.
    /// Otherwise it takes as much as there is room for, up to a piece.
    fn put(&mut self, bytes: &[u8]) -> Result<usize, Failed>
        ensures bound { IfOk result (λ n. n ≤ length bytes.now) }
        ensures some { IfOk result (λ n. 0 < length bytes.now → 0 < n) }
        ensures bytes { WriteAppends (Some self.old.written) (Some self.new.written) result bytes.now }
        ensures cause { FailsWithCause self.old.faults self.new.faults result }

        ensures failed { IsErr result ↔ Refuses self.old bytes.now }
        ensures count { IfOk result (λ n. n ≡ put_count self.old (length bytes.now)) }
        ensures after { self.new ≡ sink_after self.old bytes.now result }
    {
        let call = self.calls;
        self.calls = next_count(self.calls);
        let room = self.room - self.written.len();
        let is_full = room == 0 && !bytes.is_empty();
        if is_full || self.failing.contains(&call) {
            self.faults = next_count(self.faults);
            return Err(Failed);
        }
        let count = self.piece.min(bytes.len().min(room));
        match self.written.extend_from_slice(&bytes[..count]) {
            Ok(()) => Ok(count),
            Err(_) => unreachable!(),
        }
    }
}
