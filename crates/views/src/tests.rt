ghost use Rattle.std.specs.Prelude.{◌≡◌, length};

use super::*;
use values_undef::Order;

fn may_cross_threads<T: Send + Sync>(_value: &T) {}

/// The times of a message of two places.
fn times(alloc: std::alloc::Global, first: u64, second: u64) -> Times
    ensures { length result ≡ 2 }
{
    let mut times = Times::zero(alloc, 2);
    times.raise(0, first);
    times.raise(1, second);
    times
}

/// A thread's view may go to another thread, and hear a message there.
#[test]
fn views_may_cross_threads(rt: HostRuntime) {
    let mut view = View::zero(rt.alloc(), 2);
    may_cross_threads(&view);
    let message = times(rt.alloc(), 5, 7);
    may_cross_threads(&message);
    view.raise(0, 3);
    view.hear(&message, false);
    assert_eq!(rt; (view.at(0), view.at(1)), (3, 0));
    view.fence(Order::Rel);
    assert_eq!(rt; (view.rel().at(0), view.rel().at(1)), (3, 0));
    view.fence(Order::Acq);
    assert_eq!(rt; (view.cur().at(0), view.cur().at(1)), (5, 7));
    let other = View::zero(rt.alloc(), 2);
    assert!(rt; other.is_below(&view) && !view.is_below(&other) && view.copy().is_below(&view));
}
