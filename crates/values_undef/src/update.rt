//! What an update does with the value that it reads.
ghost use Rattle.std.specs.Prelude.{◌≡◌};
ghost use Rattle.values_undef.specs.Update.{succeeds, meets_undef, updated};

use crate::access::UpdateKind;
use crate::arithmetic::{Op, apply};
use crate::value::Val;

/// Whether the update writes over a message of this value: a compare-exchange where it finds what it
/// expects, every other update always.
pub fn succeeds(kind: &UpdateKind, value: Val) -> bool
    ensures { result ≡ succeeds kind.now value }
{
    match *kind {
        UpdateKind::Add { .. } | UpdateKind::Swap { .. } => true,
        UpdateKind::Cas { expected, .. } => match (expected, value) {
            (Val::Def(expected), Val::Def(value)) => expected == value,
            (Val::Undef, _) | (_, Val::Undef) => false,
        },
    }
}

/// Whether it is a compare-exchange whose expected value or whose message's value is undetermined, so
/// that the thread fails.
pub fn meets_undef(kind: &UpdateKind, value: Val) -> bool
    ensures { result ≡ meets_undef kind.now value }
{
    match *kind {
        UpdateKind::Cas { expected, .. } => {
            matches!(expected, Val::Undef) || matches!(value, Val::Undef)
        }
        UpdateKind::Add { .. } | UpdateKind::Swap { .. } => false,
    }
}

/// What the update writes over a value.
pub fn updated(kind: &UpdateKind, old: Val) -> Val
    ensures { result ≡ updated kind.now old }
{
    match *kind {
        UpdateKind::Add { a } => match apply(Op::Add, old, a) {
            Some(sum) => sum,
            None => unreachable!(),
        },
        UpdateKind::Swap { a } => a,
        UpdateKind::Cas { new, .. } => new,
    }
}
