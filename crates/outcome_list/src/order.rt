//! The order of outcomes.
ghost use Rattle.std.specs.Prelude.{◌≡◌};
ghost use Rattle.std.specs.Ordering.{int_cmp};
ghost use Rattle.std.specs.Cmp.Lexicographic.{slice_cmp};
ghost use Rattle.outcome_list.specs.Order.{class_of, number_told, outcome_cmp, place_of_ending, value_cmp};

use crate::found::Outcome;
use std::cmp::Ordering;
use values_undef::{Ending, Val};

/// The place of an ending among the three.
fn place_of_ending(ending: Ending) -> u64
    ensures { result ≡ place_of_ending ending }
{
    match ending {
        Ending::Done => 0,
        Ending::Failed => 1,
        Ending::Spent => 2,
    }
}

/// Whether the value is a number or not, told in a number.
fn class_of(v: Val) -> u64
    ensures { result ≡ class_of v }
{
    match v {
        Val::Def(_) => 0,
        Val::Undef => 1,
    }
}

/// The number that the value is, or 0.
fn number_told(v: Val) -> i64
    ensures { result ≡ number_told v }
{
    match v {
        Val::Def(n) => n,
        Val::Undef => 0,
    }
}

/// The order of two values.
fn compare_value(v: Val, w: Val) -> Ordering
    ensures { result ≡ value_cmp v w }
{
    class_of(v)
        .cmp(&class_of(w))
        .then(number_told(v).cmp(&number_told(w)))
}

/// The order of lists of values.
fn compare_values(a: &[Val], b: &[Val]) -> Ordering
    ensures { result ≡ slice_cmp value_cmp a.now b.now }
{
    for k in 0..a.len() {
        if k >= b.len() {
            return Ordering::Greater;
        }
        let order = compare_value(a[k], b[k]);
        if order.is_ne() {
            return order;
        }
    }
    if a.len() < b.len() {
        return Ordering::Less;
    }
    Ordering::Equal
}

/// The order of what a thread has printed.
fn compare_numbers(a: &[i64], b: &[i64]) -> Ordering
    ensures { result ≡ slice_cmp int_cmp a.now b.now }
{
    a.cmp(&b)
}

/// The order of what threads have printed.
fn compare_printed(a: &[Vec<i64>], b: &[Vec<i64>]) -> Ordering
    ensures { result ≡ slice_cmp (λ v w. slice_cmp int_cmp v.items w.items) a.now b.now }
{
    for k in 0..a.len() {
        if k >= b.len() {
            return Ordering::Greater;
        }
        let order = compare_numbers(a[k].as_slice(), b[k].as_slice());
        if order.is_ne() {
            return order;
        }
    }
    if a.len() < b.len() {
        return Ordering::Less;
    }
    Ordering::Equal
}

/// The order of two outcomes. `Equal` comes exactly where they are equal.
pub fn compare(a: &Outcome, b: &Outcome) -> Ordering
    ensures { result ≡ outcome_cmp a.now b.now }
{
    let printed = compare_printed(a.printed.as_slice(), b.printed.as_slice());
    let values = compare_values(a.values.as_slice(), b.values.as_slice());
    place_of_ending(a.ending)
        .cmp(&place_of_ending(b.ending))
        .then(printed.then(values))
}
