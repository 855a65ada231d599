//! A new shared memory, with its passes.
ghost use Rattle.std.specs.Prelude.{◌≡◌, ℕ, ◌+◌, ◌≤◌, ◌<◌, [], length, replicate, vec_capacity, IfOk};
ghost use Rattle.shared_memory.specs.Slot.{IsSmall, params_for};
ghost use Rattle.shared_memory.specs.Turns.{resting};
ghost use Rattle.shared_memory.specs.Passes.{SharedValue, fresh_from};

use crate::params::{SeatNote, SharedParams};
use crate::pass::Pass;
use crate::passes::Passes;
use crate::rule::{SplitFirst, Turns};
use crate::shared::Shared;
use crate::slot::SlotValue;
use atomic_table::{Refused, Seat, Table};
use il_syntax::Program;
use message_memory::MessageMemory;
use sqlite_items::Items;
use std::alloc::Global;
use thread_core::declared_values;
use values_undef::NoMemory;
use views::View;

/// What a memory for the program is made with.
fn params_of(alloc: Global, p: &Program, share: u64) -> Result<SharedParams, NoMemory>
    requires few { length p.now.threads ≤ 16 }
    ensures { IfOk result (λ s. s ≡ params_for p.now share) }
{
    let na = Items::from_vec(declared_values(alloc, &p.na)?);
    let atomic = Items::from_vec(declared_values(alloc, &p.atomic)?);
    Ok(SharedParams {
        na,
        atomic,
        threads: p.threads.len() as u32,
        share,
    })
}

/// Splits one thread after the other off the first seat.
fn split_off<M: MessageMemory>(
    shared: &atomic_table::Shared<SlotValue<M>, SeatNote, SharedParams, Turns>,
    mut seat: Seat<SlotValue<M>, SeatNote>,
    alloc: Global,
    mut list: Vec<Pass<M>>,
    threads: u32,
    locations: u32,
) -> Vec<Pass<M>>
    requires own { seat.table_id ≡ shared.now.table_id }
    requires words { 0 < shared.now.table_id.words }
    requires first { seat.me ≡ (resting shared.now.key 0 (replicate threads []), []) }
    requires empty { list.items ≡ [] }
    requires room { threads ≤ vec_capacity list }
    requires few { threads ≤ 16 }
    requires named { threads ≡ shared.now.key.threads }
    requires locations { locations ≡ length shared.now.key.na + length shared.now.key.atomic }
    requires small { locations ≤ 32 }
    ensures list { result.items ≡ fresh_from (record { id = shared.now.table_id; params = shared.now.key }) 0 threads }
    ensures room { vec_capacity result ≡ vec_capacity list }
{
    for thread in 0..threads {
        let rest = shared.split_seat::<SplitFirst>(&mut seat);
        list.push_reserved(Pass {
            seat,
            thread,
            view: View::zero(alloc, locations),
        });
        seat = rest;
    }
    list
}

impl<M: MessageMemory> Shared<M> {
    /// A memory that opens with the program's declared values, and one pass for each of its threads, in order. There
    /// is room for `share` accesses of each pass. The only error is want of memory.
    pub fn make(alloc: Global, p: &Program, share: u64) -> Result<(Shared<M>, Passes<M>), NoMemory>
        requires few_na { length p.now.na ≤ 16 }
        requires few_atomic { length p.now.atomic ≤ 16 }
        requires some_thread { 1 ≤ length p.now.threads }
        requires few_threads { length p.now.threads ≤ 16 }
        requires share { share ≤ 16385 }
        ensures params { IfOk result (λ r. r.0.params ≡ params_for p.now share) }
        ensures made { IfOk result (λ r. r.1.made ≡ length p.now.threads) }
        ensures passes { IfOk result (λ r. r.1.list ≡ fresh_from r.0 0 (length p.now.threads)) }
    {
        let params = params_of(alloc, p, share)?;
        let key = params_of(alloc, p, share)?;
        let threads = params.threads;
        let locations = (params.na.len() + params.atomic.len()) as u32;
        let list = Vec::with_capacity(alloc, threads as usize)?;
        let slot = SlotValue::new(alloc, params)?;
        let mut slots = Vec::with_capacity(alloc, 1)?;
        slots.push_reserved(slot);
        let (table, seat) = match Table::new(alloc, &[0, 0], slots, &key) {
            Ok(made) => made,
            Err(Refused { slots: _ }) => return Err(NoMemory),
        };
        let list = split_off(&table.shared, seat, alloc, list, threads, locations);
        let passes = Passes {
            list,
            made: threads as usize,
        };
        Ok((Shared { table }, passes))
    }
}
