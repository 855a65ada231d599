//! Whether the outcomes of one program are covered by those of another.
ghost use Rattle.std.specs.Prelude.{◌≡◌};
ghost use Rattle.std.specs.List.{position, list_any, starts_with};
ghost use Rattle.std.specs.Ordering.{int_eq};
ghost use Rattle.std.specs.Cmp.Lexicographic.{pointwise};
ghost use Rattle.outcome_list.specs.List.{covers, is_failed_ending, is_spent_ending, is_missed, found_outcome, some_is_spent};

use crate::found::{Found, Outcome};
use crate::order::compare;
use values_undef::Ending;

/// Whether the ending is a failure.
fn is_failed_ending(ending: Ending) -> bool
    ensures { result ≡ is_failed_ending ending }
{
    matches!(ending, Ending::Failed)
}

/// Whether the ending is that of a run that has come to the end of its budget.
fn is_spent_ending(ending: Ending) -> bool
    ensures { result ≡ is_spent_ending ending }
{
    matches!(ending, Ending::Spent)
}

/// Whether what each thread has printed in the one is a beginning of what it has printed in the other.
fn are_begun(begun: &[Vec<i64>], whole: &[Vec<i64>]) -> bool
    ensures { result ≡ pointwise (λ v w. starts_with int_eq w.items v.items) begun.now whole.now }
{
    if begun.len() != whole.len() {
        return false;
    }
    for k in 0..begun.len() {
        if !whole[k].as_slice().starts_with(begun[k].as_slice()) {
            return false;
        }
    }
    true
}

/// Whether the outcome of the source covers that of the target.
fn covers(q: &Outcome, o: &Outcome) -> bool
    ensures { result ≡ covers q.now o.now }
{
    compare(q, o).is_eq()
        || (is_failed_ending(q.ending) && are_begun(q.printed.as_slice(), o.printed.as_slice()))
}

/// Whether an outcome of the source covers that of the target.
fn is_covered(source: &[Found], found: &Found) -> bool
    ensures { result ≡ list_any (λ g. covers (found_outcome g) (found_outcome found.now)) source.now }
{
    source.iter().any(|g| covers(&g.outcome, &found.outcome))
}

/// Whether the outcome of the target is done or failed, and no outcome of the source covers it.
fn is_missed(source: &[Found], found: &Found) -> bool
    ensures { result ≡ is_missed source.now found.now }
{
    !is_spent_ending(found.outcome.ending) && !is_covered(source, found)
}

/// The place of the first outcome of the target, done or failed, that the source doesn't have, and of which it has no beginning
/// that has failed. `None` comes exactly where there is none.
pub fn refines(target: &[Found], source: &[Found]) -> Option<usize>
    ensures { result ≡ position (is_missed source.now) target.now }
{
    target.iter().position(|found| is_missed(source, found))
}

/// Whether some outcome of the list is spent.
pub fn some_is_spent(list: &[Found]) -> bool
    ensures { result ≡ some_is_spent list.now }
{
    list.iter().any(|f| is_spent_ending(f.outcome.ending))
}
