//! How a text divides: its lines, and the parts before and after a line that is a given word.
//!
//! The newline of a text's last line may be missing, so what comes after the last newline is a line too, where it isn't
//! empty. A whole line has its newline. `specs/Lines.antt` has what lines are, `specs/Division.antt` how a text divides at
//! the first line that is a word, and at the first whole one: a text that has none lacks the line, and is then one part. Where a
//! part comes after others, its lines are counted from theirs ([`newlines`]).
#![tactic(auto)]

mod division;
pub mod laws;
mod lines;

pub use division::{divide_at_line, divide_at_whole_line};
pub use lines::{first_line, newline, newlines, next_line};
