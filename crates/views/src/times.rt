//! Timestamps: how much a thread or a message knows of each location.
ghost use Rattle.std.specs.Prelude.{◌≡◌, ◌<◌, ◌≤◌, ◌↔◌, [], IsTrue, length, replicate, slice_index};
ghost use Rattle.views.specs.Timestamps.{raised, joined, IsPointwiseBelow};

use crate::timestamps::{is_below, join_into, raise_at};
use smallvec::SmallVec;
use std::alloc::Global;
use std::marker::Model;
use values_undef::MOST_LOCATIONS;

/// The most locations that there are timestamps for: those of both kinds.
pub const MAX_LOCATIONS: usize = 2 * MOST_LOCATIONS;

/// A timestamp for each location, at most [`MAX_LOCATIONS`] of them. Contracts see the list.
#[derive(Drop)]
pub struct Times {
    timestamps: SmallVec<u64, MAX_LOCATIONS>,
}

impl Model for Times {
    ghost use Rattle.std.specs.Prelude.{ℕ, ◌≤◌, List, length};

    ghost Value = { List ℕ };

    ghost view = { λ v. v.timestamps.items };

    ghost invariant = { λ v. length v.timestamps.items ≤ 32 };
}

impl Times {
    /// The timestamps of the first state of `n` locations, of which there may be
    /// [`MAX_LOCATIONS`].
    pub fn zero(alloc: Global, n: u32) -> Times
        requires { n ≤ 32 }
        ensures { result ≡ replicate n 0 }
    {
        Times {
            timestamps: SmallVec::from_elem(alloc, 0, n as usize).unwrap(),
        }
    }

    /// The number of locations.
    pub fn len(&self) -> usize
        ensures value { result ≡ length self.now }
        ensures small { result ≤ 32 }
    {
        self.timestamps.len()
    }

    /// Whether there is no location.
    pub fn is_empty(&self) -> bool
        ensures { IsTrue result ↔ (self.now ≡ []) }
    {
        self.timestamps.is_empty()
    }

    /// The timestamp of location `i`, which has to be there.
    pub fn at(&self, i: u32) -> u64
        requires { i < length self.now }
        ensures { result ≡ slice_index self.now i }
    {
        self.timestamps.as_slice()[i as usize]
    }

    /// Raises the timestamp of location `i`, which has to be there, to at least `t`.
    pub fn raise(&mut self, i: u32, t: u64)
        requires { i < length self.old }
        ensures value { self.new ≡ raised self.old i t }
        ensures len { length self.new ≡ length self.old }
    {
        raise_at(self.timestamps.as_mut_slice(), i as usize, t);
    }

    /// Raises each timestamp to that of the others, which have to be as many.
    pub fn join(&mut self, other: &Times)
        requires { length other.now ≡ length self.old }
        ensures value { self.new ≡ joined self.old other.now }
        ensures len { length self.new ≡ length self.old }
    {
        join_into(self.timestamps.as_mut_slice(), other.timestamps.as_slice());
    }

    /// Equal timestamps.
    pub fn copy(&self) -> Times
        ensures { result ≡ self.now }
    {
        Times {
            timestamps: SmallVec::from_slice(
                *self.timestamps.allocator(),
                self.timestamps.as_slice(),
            ).unwrap(),
        }
    }

    /// Whether no timestamp is past that of the others, which have to be as many.
    pub fn is_below(&self, other: &Times) -> bool
        requires { length other.now ≡ length self.now }
        ensures { IsTrue result ↔ IsPointwiseBelow self.now other.now }
    {
        is_below(self.timestamps.as_slice(), other.timestamps.as_slice())
    }
}
