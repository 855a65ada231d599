//! Functions whose statements are changed in place, as forwarding and the removal of stores change them, and whether
//! a statement is the same as another.
#![tactic(auto)]

mod heads;
pub mod laws;
mod rewrite;

pub use heads::same_head;
pub use rewrite::{Rewrite, rewritten};
