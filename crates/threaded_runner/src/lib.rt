//! Threads of a program that run apart, over one memory: one worker for each thread of the program, which
//! makes the thread's silent steps alone and its accesses on the shared memory. What they make together is one
//! run of the machine, complete for the budget of steps and drawn from the seed.
//!
//! The machine takes one step of one thread at a time, and here nobody gives turns. That the result is a run all
//! the same is proved from what each worker says of its own thread (`specs/Worked.antt`) and from the one history
//! of the memory (`specs/Laws.antt`). Which run it is, how many workers run beside each other, and that a wait
//! for the memory or for the gate ends is not said.
//!
//! Read first `run_program` in `whole.rt`, then `specs/Worked.antt`.
#![tactic(auto)]

mod gate;
pub mod laws;
mod running;
mod steps;
mod whole;
mod worker;

pub use gate::{Gate, NoGate};
pub use running::run_threads;
pub use whole::run_program;
