//! What the graph keeps of an entry.
ghost use Rattle.std.specs.Prelude.{◌≡◌, ℕ, ◌<◌, ◌≤◌, ◌^◌, ◌==◌, length, slice_index, if◌then◌else◌};

use values_undef::MOST_THREADS;
use views::Times;

/// An entry: its thread, its number among that thread's entries from 0, and for each thread how many of
/// its entries stand before this one.
#[derive(Clone, Copy, PartialEq, Eq)]
pub struct Row {
    pub thread: u32,
    pub number: u32,
    pub counts: [u32; MOST_THREADS],
}

/// The row of an entry, by the clock after it: of its own thread the entries before it alone stand before
/// it.
pub(crate) fn row_of(thread: u32, number: u32, cur: &Times) -> Row
    requires there { thread < length cur.now }
    requires threads { length cur.now ≤ 16 }
    requires small { (i : ℕ) → slice_index cur.now i < 2 ^ 32 }
    ensures thread { result.thread ≡ thread }
    ensures number { result.number ≡ number }
    ensures counts { (i : ℕ) → i < length cur.now → slice_index result.counts i ≡ if i == thread then number else slice_index cur.now i }
{
    let mut counts = [0; MOST_THREADS];
    for i in 0..cur.len() {
        counts[i] = count_of(i as u32, cur);
    }
    counts[thread as usize] = number;
    Row {
        thread,
        number,
        counts,
    }
}

/// The count of thread `i`.
fn count_of(i: u32, cur: &Times) -> u32
    requires there { i < length cur.now }
    requires small { (j : ℕ) → slice_index cur.now j < 2 ^ 32 }
    ensures { result ≡ slice_index cur.now i }
{
    cur.at(i) as u32
}
