//! Execution graphs.
ghost use Rattle.std.specs.Prelude.{◌≡◌, ℕ, ◌<◌, ◌≤◌, ◌↔◌, IsTrue, length, slice_index};
ghost use Rattle.exec_graph.specs.Graph.{StandsBefore, AreOfThreads, IsFirstApart, ComeFirst, row_at};

use crate::links::Links;
use crate::row::Row;
use std::marker::Model;

/// The execution graph of a journal that is a run: where each reading entry reads from, the race of each
/// entry that has one, and which entries stand before which.
#[derive(Drop)]
pub struct Graph {
    pub reads: Links,
    pub races: Links,
    rows: Vec<Row>,
}

impl Model for Graph {
    ghost use Rattle.exec_graph.specs.Graph.{GraphValue, AreOfThreads};

    ghost Value = { GraphValue };

    ghost view = { λ g. record { reads = g.reads; races = g.races; rows = g.rows.items } };

    ghost invariant = { λ g. AreOfThreads g.rows.items };
}

impl Graph {
    /// The graph of these parts.
    pub(crate) fn new(reads: Links, races: Links, rows: Vec<Row>) -> Graph
        requires { AreOfThreads rows.items }
        ensures { result ≡ record { reads = reads; races = races; rows = rows.items } }
    {
        Graph { reads, races, rows }
    }

    /// Whether entry `a` stands before entry `b`. It takes no memory.
    pub fn past(&self, a: u32, b: u32) -> bool
        requires first { a < length self.now.rows }
        requires second { b < length self.now.rows }
        ensures { IsTrue result ↔ StandsBefore self.now.rows a b }
    {
        stands_before(&self.rows, a, b)
    }
}

/// Whether entry `a` stands before entry `b`, by their rows.
pub(crate) fn stands_before(rows: &[Row], a: u32, b: u32) -> bool
    requires first { a < length rows.now }
    requires second { b < length rows.now }
    requires threads { AreOfThreads rows.now }
    ensures { IsTrue result ↔ StandsBefore rows.now a b }
{
    let thread = thread_of(rows, a);
    rows[a as usize].number < rows[b as usize].counts[thread as usize]
}

/// The thread of an entry.
fn thread_of(rows: &[Row], a: u32) -> u32
    requires there { a < length rows.now }
    requires threads { AreOfThreads rows.now }
    ensures value { result ≡ (row_at rows.now a).thread }
    ensures small { result < 16 }
{
    rows[a as usize].thread
}

/// The first of the writes of a location, in their order, that doesn't stand before entry `k`. It is found by
/// halving.
pub(crate) fn first_apart(rows: &[Row], writes: &[u32], k: u32) -> Option<u32>
    requires there { k < length rows.now }
    requires writes { (i : ℕ) → i < length writes.now → slice_index writes.now i < length rows.now }
    requires threads { AreOfThreads rows.now }
    requires first { ComeFirst rows.now writes.now k }
    ensures { IsFirstApart rows.now writes.now k result }
{
    let mut low = 0;
    let mut high = writes.len();
    while low < high {
        let middle = low + (high - low) / 2;
        if stands_before(rows, writes[middle], k) {
            low = middle + 1;
        } else {
            high = middle;
        }
    }
    writes.get(low).copied()
}
