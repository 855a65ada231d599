//! Whether two programs have one shape.
ghost use Rattle.std.specs.Prelude.{◌≡◌, ◌↔◌, true};
ghost use Rattle.validator.specs.Shape as shape;

use il_syntax::{Function, Location, Program, Start};

fn is_empty<T>(items: &[T]) -> bool
    ensures { result ≡ shape.is_nil items.now }
{
    match items {
        [] => true,
        [_, ..] => false,
    }
}

#[tactic(auto, using(crate::proofs::ShapeLaws::locations_none, crate::proofs::ShapeLaws::locations_left))]
fn same_locations(one: &[Location], other: &[Location]) -> bool
    ensures { result ≡ shape.locations_equal one.now other.now }
{
    match one {
        [] => is_empty(other),
        [a, more @ ..] => match other {
            [] => false,
            [b, rest @ ..] => {
                a.name.as_slice() == b.name.as_slice()
                    && a.value == b.value
                    && same_locations(more, rest)
            }
        },
    }
}

#[tactic(auto, using(crate::proofs::ShapeLaws::numbers_none, crate::proofs::ShapeLaws::numbers_left))]
fn same_numbers(one: &[i64], other: &[i64]) -> bool
    ensures { result ≡ shape.numbers_equal one.now other.now }
{
    match one {
        [] => is_empty(other),
        [a, more @ ..] => match other {
            [] => false,
            [b, rest @ ..] => *a == *b && same_numbers(more, rest),
        },
    }
}

#[tactic(auto, using(crate::proofs::ShapeLaws::threads_none, crate::proofs::ShapeLaws::threads_left))]
fn same_threads(one: &[Start], other: &[Start]) -> bool
    ensures { result ≡ shape.threads_equal one.now other.now }
{
    match one {
        [] => is_empty(other),
        [a, more @ ..] => match other {
            [] => false,
            [b, rest @ ..] => {
                a.function == b.function
                    && same_numbers(a.args.as_slice(), b.args.as_slice())
                    && same_threads(more, rest)
            }
        },
    }
}

#[tactic(auto, using(crate::proofs::ShapeLaws::signatures_none, crate::proofs::ShapeLaws::signatures_left))]
fn same_signatures(one: &[Function], other: &[Function]) -> bool
    ensures { result ≡ shape.signatures_equal one.now other.now }
{
    match one {
        [] => is_empty(other),
        [f, more @ ..] => match other {
            [] => false,
            [g, rest @ ..] => {
                f.name.as_slice() == g.name.as_slice()
                    && f.params == g.params
                    && same_signatures(more, rest)
            }
        },
    }
}

fn same_parts(p: &Program, q: &Program) -> bool
    ensures { result ≡ shape.parts_equal p.now q.now }
{
    same_locations(p.na.as_slice(), q.na.as_slice())
        && same_locations(p.atomic.as_slice(), q.atomic.as_slice())
        && same_threads(p.threads.as_slice(), q.threads.as_slice())
        && same_signatures(p.functions.as_slice(), q.functions.as_slice())
}

/// Whether locations, threads and the functions' number, names and parameter counts are equal. It takes no
/// memory.
pub fn same_shape(p: &Program, q: &Program) -> bool
    ensures { (result ≡ true) ↔ shape.SameShape p.now q.now }
{
    same_parts(p, q)
}
