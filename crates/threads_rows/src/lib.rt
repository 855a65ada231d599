//! Rows of the shared memory and of `run`, in real threads: what no clause says of them is that workers run
//! beside each other, and that calls return. And of faults of the outside, at each call of a source and of a sink.
#![tactic(auto)]

#[cfg(test)]
mod accesses;
#[cfg(test)]
mod faults;
#[cfg(test)]
mod gates;
