//! The report of a run: what it tells, and how a command comes to it.
//!
//! A program runs in the place of the one that was given: its target. The journal is what the target did, and the
//! source journal the run of the given program that it was lifted to. `specs/Runs.antt` says what is promised of such
//! a run, whoever made it and whichever the target is, and every law on reports is one on it: the laws are stated once,
//! for all commands that print a report.
//!
//! A command that prints one
//! - makes the chain of the given program by [`optimised`], which ends in the [`target`] of the passes, and perhaps what
//!   [`tidied_target`] makes of that,
//! - makes a run of that, or of a program whose journals it lifts to the chain's target by itself,
//! - and gets its report from [`reported`], from [`reported_tidied`], or from [`written`] where it has lifted the journal.
//!
//! Its meaning in `tool` is then `report_meaning` of which program runs (`IsOptimised`, `IsTidiedTarget`)
//! and of what it says of the journal besides; what is known of it, and the laws, follow from a line each.
#![tactic(auto)]

mod chain;
pub mod laws;
mod report;
mod tidied;

pub use chain::{optimised, reported, target};
pub use report::{Report, written};
pub use tidied::{reported_tidied, tidied_target};
