//! Where a pair is.
use crate::trace::PairEnd;
use values_undef::Vals;

/// Where a pair is: before `enter`, with the values of the parameters that were given so far; in the
/// function; at its end.
#[derive(Drop)]
pub enum Stage {
    AtEntry { targets: Vals, sources: Vals },
    Inside,
    Over { end: PairEnd },
}
