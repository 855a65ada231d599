//! Counts of calls and of faults.
ghost use Rattle.std.specs.Prelude.{◌≡◌};
ghost use Rattle.sq_outside.specs.Faults as spec;

/// One more, in a count that stands still at its type's end.
pub fn next_count(count: u64) -> u64
    ensures { result ≡ spec.next_count count }
{
    count.saturating_add(1)
}
