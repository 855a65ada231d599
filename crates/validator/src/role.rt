//! The role of each statement of a target.
use il_syntax::Atom;

/// What a statement of the target is beside the source: the same as its partner, a load that became a copy
/// of an atom, a store that became a `skip`, or a load that is the target's alone.
#[derive(Clone, Copy, PartialEq, Eq)]
pub enum Role {
    Same,
    Turned { x: u32, a: Atom },
    Removed { x: u32, a: Atom },
    Inserted,
}
