//! The messages of all locations in one pool, and those of each location by rising timestamp.
ghost use Rattle.std.specs.Prelude.{◌≡◌, ◌<◌, ◌≤◌, [], length, slice_index_or};
ghost use Rattle.message_memory.specs.Memory.{first_message};
ghost use Rattle.indexed_memory.specs.Calls.{rank_in, gap_in};

use crate::gaps;
use crate::line::{Line, reserve_lines};
use crate::ranks::{Rank, count_messages, gap_at, rank_of};
use crate::sorted::{find, is_free};
use message_memory::{Histories, Message, push_reserved};
use std::alloc::Global;
use std::marker::Model;
use values_undef::{Access, Choice, NoMemory, Val};
use views::Times;

/// The first message of a location, with the zero times of so many locations.
fn first_message(alloc: Global, value: i64, locations: u32) -> Message
    requires { locations ≤ 32 }
    ensures { result ≡ first_message locations value }
{
    Message {
        from: 0,
        to: 0,
        value: Val::Def(value),
        times: Times::zero(alloc, locations),
    }
}

/// The messages of all locations in the order in which they came, and the messages of each location in
/// the order of their timestamps.
#[derive(Drop)]
pub struct Index {
    pool: Vec<Message>,
    lines: Vec<Line>,
    spare: usize,
}

impl Model for Index {
    ghost use Rattle.message_memory.specs.PoolValue.{PoolValue};

    ghost Value = { PoolValue };

    ghost use Rattle.std.specs.Prelude.{vec_len, vec_capacity};
    ghost use Rattle.indexed_memory.specs.Index.{histories_in, IsIndex};

    ghost view = { λ i. record { histories = histories_in i.pool.items i.lines.items; room = i.spare } };

    ghost invariant = { λ i. IsIndex i.pool.items (vec_len i.pool) (vec_capacity i.pool) i.spare i.lines.items };
}

impl Index {
    /// The number of messages of location `y`.
    pub fn messages(&self, y: u32) -> u64
        requires { y < length self.now.histories }
        ensures { result ≡ length (slice_index_or self.now.histories y []) }
    {
        count_messages(
            self.pool.as_slice(),
            self.lines[y as usize].places.as_slice(),
        )
    }

    /// Where `to` stands among the messages of location `y`.
    pub fn rank(&self, y: u32, to: u64) -> Rank
        requires { y < length self.now.histories }
        ensures { result ≡ rank_in to (slice_index_or self.now.histories y []) }
    {
        rank_of(
            self.pool.as_slice(),
            self.lines[y as usize].places.as_slice(),
            to,
        )
    }

    /// The width of the gap after message `k` of location `y`, by rising timestamp. The last has none.
    pub fn gap(&self, y: u32, k: u64) -> Option<u64>
        requires there { y < length self.now.histories }
        requires message { k < length (slice_index_or self.now.histories y []) }
        ensures { result ≡ gap_in k (slice_index_or self.now.histories y []) }
    {
        gap_at(
            self.pool.as_slice(),
            self.lines[y as usize].places.as_slice(),
            k as usize,
        )
    }
}

impl Histories for Index {
    ghost histories = { λ i. i.histories };

    ghost room = { λ i. i.room };

    fn start(alloc: Global, atomic: &[i64], locations: u32) -> Result<Self, NoMemory> {
        let mut pool = Vec::new(alloc);
        let mut lines = Vec::new(alloc);
        for y in 0..atomic.len() {
            pool.push(first_message(alloc, atomic[y], locations))?;
            lines.push(Line::first(alloc, y as u32)?)?;
        }
        Ok(Index {
            pool,
            lines,
            spare: 0,
        })
    }

    fn reserve(&mut self, n: usize) -> Result<(), NoMemory> {
        if n <= self.spare {
            return Ok(());
        }
        if n > u32::MAX as usize - self.pool.len() {
            return Err(NoMemory);
        }
        self.pool.reserve(n)?;
        reserve_lines(self.lines.as_mut_slice(), n)?;
        self.spare = n;
        Ok(())
    }

    fn find(&self, y: u32, to: u64) -> Option<&Message> {
        find(
            self.pool.as_slice(),
            self.lines[y as usize].places.as_slice(),
            to,
        )
    }

    fn is_free(&self, y: u32, from: u64, to: u64) -> bool {
        is_free(
            self.pool.as_slice(),
            self.lines[y as usize].places.as_slice(),
            from,
            to,
        )
    }

    fn push(&mut self, y: u32, message: Message) {
        let place = self.pool.len() as u32;
        push_reserved(&mut self.pool, message);
        self.lines[y as usize].insert(self.pool.as_slice(), place);
        self.spare -= 1;
    }

    fn count(&self, y: u32, seen: u64, a: &Access) -> u64 {
        let line = &self.lines[y as usize];
        gaps::count(
            self.pool.as_slice(),
            line.places.as_slice(),
            line.runs.as_slice(),
            seen,
            a,
        )
    }

    fn nth(&self, y: u32, seen: u64, a: &Access, k: u64) -> Choice {
        let line = &self.lines[y as usize];
        gaps::nth(
            self.pool.as_slice(),
            line.places.as_slice(),
            line.runs.as_slice(),
            seen,
            a,
            k,
        )
    }
}
