//! The messages of one location, by rising timestamp, and what is known of the gaps between them.
ghost use Rattle.std.specs.Prelude.{◌≡◌, ℕ, ◌+◌, ◌-◌, ◌*◌, ◌<◌, ◌≤◌, [], ◌∷◌, length, slice_index_or, IfOk, OnOk, vec_capacity};
ghost use Rattle.std.specs.List.{insert, AllByRecursion, AllZip};
ghost use Rattle.message_memory.specs.Memory.{inserted};
ghost use Rattle.indexed_memory.specs.Sorted.{AreSorted, AreRuns, history_of, message_of, run_of, no_run};
ghost use Rattle.indexed_memory.specs.Index.{HasGrown, HasRoomFor};

use crate::runs::{RUN, Run, run_at};
use crate::sorted::count_below;
use message_memory::{Message, push_reserved};
use std::alloc::Global;
use values_undef::NoMemory;

/// The places of a location's messages in the pool by rising timestamp, and of each whole run of gaps
/// between them the number of wide ones.
#[derive(Drop)]
pub struct Line {
    pub places: Vec<u32>,
    pub runs: Vec<Run>,
}

/// Puts a place at index `k`, for which there is room.
fn insert_reserved(places: &mut Vec<u32>, k: usize, place: u32)
    requires there { k ≤ length places.old.items }
    requires room { length places.old.items < vec_capacity places.old }
    ensures items { places.new.items ≡ insert places.old.items k place }
    ensures len { length places.new.items ≡ length places.old.items + 1 }
    ensures capacity { vec_capacity places.old ≤ vec_capacity places.new }
{
    if places.insert(k, place).is_err() {
        unreachable!()
    }
}

/// Makes the runs anew from the one of number `kept` on, for which there is room.
fn renew(runs: &mut Vec<Run>, pool: &[Message], places: &[u32], kept: usize)
    requires sorted { AreSorted pool.now places.now }
    requires known { 256 * kept < length places.now }
    requires kept { kept ≤ length runs.old.items }
    requires counted { (r : ℕ) → r < kept → slice_index_or runs.old.items r no_run ≡ run_of pool.now places.now r }
    requires room { length places.now ≤ 256 * vec_capacity runs.old + 256 }
    ensures runs { AreRuns pool.now places.now runs.new.items }
    ensures capacity { vec_capacity runs.old ≤ vec_capacity runs.new }
{
    runs.truncate(kept);
    while runs.len() < (places.len() - 1) / RUN {
        let run = run_at(pool, places, runs.len());
        push_reserved(runs, run);
    }
}

impl Line {
    /// The line of a location whose only message stands at this place of the pool.
    pub fn first(alloc: Global, place: u32) -> Result<Line, NoMemory>
        ensures places { IfOk result (λ line. line.places.items ≡ place ∷ []) }
        ensures runs { IfOk result (λ line. line.runs.items ≡ []) }
        ensures room { IfOk result (λ line. 1 ≤ vec_capacity line.places) }
    {
        let mut places = Vec::new(alloc);
        places.push(place)?;
        Ok(Line {
            places,
            runs: Vec::new(alloc),
        })
    }

    /// Makes room for so many more.
    pub fn reserve(&mut self, n: usize) -> Result<(), NoMemory>
        ensures grown { HasGrown self.old self.new }
        ensures room { OnOk result (HasRoomFor n self.new) }
    {
        self.places.reserve(n)?;
        self.runs.reserve(n / RUN + 1)?;
        Ok(())
    }

    /// Puts a place of the pool in its order, for which there is room.
    pub fn insert(&mut self, pool: &[Message], place: u32)
        requires sorted { AreSorted pool.now self.old.places.items }
        requires runs { AreRuns pool.now self.old.places.items self.old.runs.items }
        requires there { place < length pool.now }
        requires place_room { length self.old.places.items < vec_capacity self.old.places }
        requires run_room { length self.old.places.items < 256 * vec_capacity self.old.runs + 256 }
        ensures history { history_of pool.now self.new.places.items ≡ inserted (message_of pool.now (place ∷ []) 0) (history_of pool.now self.old.places.items) }
        ensures sorted { AreSorted pool.now self.new.places.items }
        ensures runs { AreRuns pool.now self.new.places.items self.new.runs.items }
        ensures len { length self.new.places.items ≡ length self.old.places.items + 1 }
        ensures place_room { vec_capacity self.old.places ≤ vec_capacity self.new.places }
        ensures run_room { vec_capacity self.old.runs ≤ vec_capacity self.new.runs }
    {
        let k = count_below(pool, self.places.as_slice(), pool[place as usize].to);
        insert_reserved(&mut self.places, k, place);
        renew(
            &mut self.runs,
            pool,
            self.places.as_slice(),
            k.saturating_sub(1) / RUN,
        );
    }
}

/// Makes room for so many more in each line.
pub fn reserve_lines(lines: &mut [Line], n: usize) -> Result<(), NoMemory>
    ensures grown { AllZip HasGrown lines.old lines.new }
    ensures room { OnOk result (AllByRecursion (HasRoomFor n) lines.new) }
{
    for i in 0..lines.len() {
        lines[i].reserve(n)?;
    }
    Ok(())
}
