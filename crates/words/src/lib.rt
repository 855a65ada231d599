//! The words of a command line, read through `clap`.
//!
//! The first word is the command. The words after it are the command's options in any order, each
//! at most once, as `--name value` or `--name=value`. `specs/Meaning.antt` says which command
//! words mean, without a word on `clap`; words that mean none are refused.
#![tactic(auto)]

mod command;
mod laws;
mod names;
mod numbers;
mod program;
mod read;

pub use command::{Command, Drawing, Form, WordsFault};
pub use laws::words_mean_one_command;
pub use read::read_words;
