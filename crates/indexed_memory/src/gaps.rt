//! The choices of an access at the messages of one location.
ghost use Rattle.std.specs.Prelude.{◌≡◌, ◌+◌, ◌*◌, ◌/◌, ◌<◌, ◌≤◌, ◌^◌, Some, None, length, slice_get, slice_index_or, IfSome, IsSome, IfOk, IfErr, ◌-◌};
ghost use Rattle.message_memory.specs.Memory.{last_to};
ghost use Rattle.message_memory.specs.Candidates.{choices_from};
ghost use Rattle.indexed_memory.specs.Sorted.{history_of, AreSorted, IsRank, AreRuns, no_run};
ghost use Rattle.indexed_memory.specs.Widths.{width_for, wide_in, choice_below, choices_under};

use crate::runs::{RUN, Run};
use crate::sorted::{count_below, message};
use message_memory::{Message, choice_at};
use values_undef::{Access, Choice, UpdateKind};

/// How wide the gap after a message has to be for the access to have a choice there, where that alone
/// decides. A compare-exchange looks at the message.
fn width_for(a: &Access) -> Option<u64>
    ensures { result ≡ width_for a.now }
{
    match a {
        Access::Read { .. } => Some(0),
        Access::Write { .. } => Some(4),
        Access::Update { kind, .. } => match kind {
            UpdateKind::Add { .. } | UpdateKind::Swap { .. } => Some(1),
            UpdateKind::Cas { .. } => None,
        },
        _ => None,
    }
}

/// The number of gaps of a run that are at least so wide.
fn wide_in(run: &Run, width: u64) -> u64
    ensures { result ≡ wide_in run.now width }
{
    if width == 0 {
        RUN as u64
    } else if width == 1 {
        run.narrow as u64
    } else {
        run.wide as u64
    }
}

/// Where a run of gaps ends before message `j` and begins at `low` or later, the number of choices in it.
fn whole_run(runs: &[Run], width: Option<u64>, low: usize, j: usize) -> Option<u64>
    requires { j ≤ 256 * length runs.now + 255 }
    ensures number { IfSome result (λ n. IfSome width (λ w. n ≡ wide_in (slice_index_or runs.now (j / 256 - 1) no_run) w)) }
    ensures width { IfSome result (λ n. IsSome width) }
    ensures whole { IfSome result (λ n. (low + 256 ≤ j) × (j ≡ 256 * (j / 256))) }
{
    let width = width?;
    if j < RUN || j - RUN < low || j % RUN != 0 {
        return None;
    }
    Some(wide_in(&runs[j / RUN - 1], width))
}

/// The choice at message `j`, which is not the last.
fn choice_below(pool: &[Message], places: &[u32], a: &Access, j: usize) -> Option<Choice>
    requires sorted { AreSorted pool.now places.now }
    requires there { j + 1 < length places.now }
    requires small { last_to (history_of pool.now places.now) ≤ 2 ^ 60 }
    ensures { result ≡ choice_below pool.now places.now a.now j }
{
    choice_at(
        a,
        Some(message(pool, places, j + 1).from),
        message(pool, places, j),
    )
}

/// From message `j` down, so many choices are at the messages up to the second number.
fn count_down(
    pool: &[Message],
    places: &[u32],
    runs: &[Run],
    seen: u64,
    a: &Access,
    low: usize,
    j: usize,
) -> (u64, usize)
    requires sorted { AreSorted pool.now places.now }
    requires runs { AreRuns pool.now places.now runs.now }
    requires small { last_to (history_of pool.now places.now) ≤ 2 ^ 60 }
    requires rank { IsRank pool.now places.now seen low }
    requires there { j < length places.now }
    requires more { low < j }
    ensures count { result.0 + length (choices_under pool.now places.now seen a.now result.1) ≡ length (choices_under pool.now places.now seen a.now j) }
    ensures down { (low ≤ result.1) × (result.1 < j) }
{
    if let Some(number) = whole_run(runs, width_for(a), low, j) {
        return (number, j - RUN);
    }
    if choice_below(pool, places, a, j - 1).is_some() {
        return (1, j - 1);
    }
    (0, j - 1)
}

/// How many choices the access has at the newest message, and that message's number.
fn count_newest(pool: &[Message], places: &[u32], seen: u64, a: &Access, low: usize) -> u64
    requires sorted { AreSorted pool.now places.now }
    requires small { last_to (history_of pool.now places.now) ≤ 2 ^ 60 }
    requires rank { IsRank pool.now places.now seen low }
    requires some { low < length places.now }
    ensures { result + length (choices_under pool.now places.now seen a.now (length places.now - 1)) ≡ length (choices_from seen a.now None (history_of pool.now places.now)) }
{
    if choice_at(a, None, message(pool, places, places.len() - 1)).is_some() {
        return 1;
    }
    0
}

/// How many choices the access has at the messages from `seen` on.
pub fn count(pool: &[Message], places: &[u32], runs: &[Run], seen: u64, a: &Access) -> u64
    requires sorted { AreSorted pool.now places.now }
    requires runs { AreRuns pool.now places.now runs.now }
    requires small { last_to (history_of pool.now places.now) ≤ 2 ^ 60 }
    requires few { length places.now < 2 ^ 63 }
    ensures { result ≡ length (choices_from seen a.now None (history_of pool.now places.now)) }
{
    let low = count_below(pool, places, seen);
    if low == places.len() {
        return 0;
    }
    let mut count = count_newest(pool, places, seen, a, low);
    let mut j = places.len() - 1;
    while low < j {
        let (number, to) = count_down(pool, places, runs, seen, a, low, j);
        count += number;
        j = to;
    }
    count
}

/// From message `j` down, the choice of number `left`; or so many are still to be passed over at the messages
/// below the second number.
fn nth_down(
    pool: &[Message],
    places: &[u32],
    runs: &[Run],
    seen: u64,
    a: &Access,
    low: usize,
    j: usize,
    left: u64,
) -> Result<Choice, (u64, usize)>
    requires sorted { AreSorted pool.now places.now }
    requires runs { AreRuns pool.now places.now runs.now }
    requires small { last_to (history_of pool.now places.now) ≤ 2 ^ 60 }
    requires rank { IsRank pool.now places.now seen low }
    requires there { j < length places.now }
    requires more { low < j }
    ensures found { IfOk result (λ c. slice_get (choices_under pool.now places.now seen a.now j) left ≡ Some c) }
    ensures left { IfErr result (λ x. slice_get (choices_under pool.now places.now seen a.now x.1) x.0 ≡ slice_get (choices_under pool.now places.now seen a.now j) left) }
    ensures down { IfErr result (λ x. (low ≤ x.1) × (x.1 < j)) }
{
    if let Some(number) = whole_run(runs, width_for(a), low, j) {
        if number <= left {
            return Err((left - number, j - RUN));
        }
    }
    match choice_below(pool, places, a, j - 1) {
        None => Err((left, j - 1)),
        Some(choice) => {
            if left == 0 {
                return Ok(choice);
            }
            Err((left - 1, j - 1))
        }
    }
}

/// The choice of number `k`, if it is at the newest message; else so many are still to be passed over.
fn nth_newest(
    pool: &[Message],
    places: &[u32],
    seen: u64,
    a: &Access,
    low: usize,
    k: u64,
) -> Result<Choice, u64>
    requires sorted { AreSorted pool.now places.now }
    requires small { last_to (history_of pool.now places.now) ≤ 2 ^ 60 }
    requires rank { IsRank pool.now places.now seen low }
    requires some { low < length places.now }
    ensures found { IfOk result (λ c. slice_get (choices_from seen a.now None (history_of pool.now places.now)) k ≡ Some c) }
    ensures left { IfErr result (λ n. slice_get (choices_under pool.now places.now seen a.now (length places.now - 1)) n ≡ slice_get (choices_from seen a.now None (history_of pool.now places.now)) k) }
{
    match choice_at(a, None, message(pool, places, places.len() - 1)) {
        None => Err(k),
        Some(choice) => {
            if k == 0 {
                return Ok(choice);
            }
            Err(k - 1)
        }
    }
}

/// The choice of number `k` of these, newest message first.
pub fn nth(pool: &[Message], places: &[u32], runs: &[Run], seen: u64, a: &Access, k: u64) -> Choice
    requires sorted { AreSorted pool.now places.now }
    requires runs { AreRuns pool.now places.now runs.now }
    requires small { last_to (history_of pool.now places.now) ≤ 2 ^ 60 }
    requires in_range { k < length (choices_from seen a.now None (history_of pool.now places.now)) }
    ensures { slice_get (choices_from seen a.now None (history_of pool.now places.now)) k ≡ Some result }
{
    let low = count_below(pool, places, seen);
    let mut left = match nth_newest(pool, places, seen, a, low, k) {
        Ok(choice) => return choice,
        Err(left) => left,
    };
    let mut j = places.len() - 1;
    while low < j {
        match nth_down(pool, places, runs, seen, a, low, j, left) {
            Ok(choice) => return choice,
            Err((rest, below)) => {
                left = rest;
                j = below;
            }
        }
    }
    unreachable!()
}
