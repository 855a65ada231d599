//! Why a target isn't accepted.

/// A rule that a target breaks. V1: a statement without a partner, or other heads. V2: a turned load whose
/// atom isn't known. V3, V4, V5, V6: a load, a release, a call or the end that a path reaches with a removed
/// store pending. V7: an inserted load that doesn't stand before a `while`.
#[derive(Clone, Copy, PartialEq, Eq)]
pub enum Fault {
    V1,
    V2,
    V3,
    V4,
    V5,
    V6,
    V7,
}

/// Accepted, or the first fault and its site.
#[derive(Clone, Copy, PartialEq, Eq)]
pub enum Judged {
    Yes,
    No { site: u32, why: Fault },
}
