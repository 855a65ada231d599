//! Programs of the language as trees: what they are, which of them are well-formed, how their
//! statements are counted, and their one canonical text.
//!
//! Every list is an `Items`, which contracts see as a plain list, so that two programs are equal
//! exactly where they are equal values. Read first `specs/WellFormed.antt`, with the rules C1 to C8 as
//! fields of one record, then `specs/Statements.antt` for sites and `specs/Text.antt` for the text.
#![tactic(auto)]

mod checks;
mod copies;
mod fences;
pub mod laws;
pub mod names;
pub mod program;
mod rules;
pub mod statement;
pub mod text_order;

pub use checks::{fits, well_formed};
pub use copies::{
    copy_function, copy_name, copy_names, copy_program, copy_statement, with_functions,
};
pub use fences::has_no_fence;
pub use names::{is_among, is_digit, is_letter, is_name, is_reserved, is_word_byte};
pub use program::{
    Function, Functions, Location, Locations, Name, Names, Numbers, Program, Start, Starts,
};
pub use statement::{Atom, Atoms, Block, Rmw, Stmt};
pub use text_order::{sites, sites_within};
