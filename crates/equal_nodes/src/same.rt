//! Whether two events are the same, one form of event at a time.
ghost use Rattle.std.specs.Prelude.{◌≡◌, ◌↔◌, IsTrue};

use values_undef::{Cause, Event, Order, Val};

fn is_na_read(e: &Event, x: u32, v: Val) -> bool
    ensures { IsTrue result ↔ (e.now ≡ Event.NaRead x v) }
{
    match *e {
        Event::NaRead { x: place, v: value } => place == x && value == v,
        _ => false,
    }
}

fn is_na_write(e: &Event, x: u32, v: Val, version: u64) -> bool
    ensures { IsTrue result ↔ (e.now ≡ Event.NaWrite x v version) }
{
    match *e {
        Event::NaWrite {
            x: place,
            v: value,
            version: number,
        } => {
            if place != x {
                return false;
            }
            if value != v {
                return false;
            }
            number == version
        }
        _ => false,
    }
}

fn is_read(e: &Event, y: u32, order: Order, v: Val, to: u64) -> bool
    ensures { IsTrue result ↔ (e.now ≡ Event.Read y order v to) }
{
    match *e {
        Event::Read {
            y: place,
            order: kind,
            v: value,
            to: end,
        } => {
            if place != y {
                return false;
            }
            if kind != order {
                return false;
            }
            if value != v {
                return false;
            }
            end == to
        }
        _ => false,
    }
}

fn is_write(e: &Event, y: u32, order: Order, v: Val, from: u64, to: u64) -> bool
    ensures { IsTrue result ↔ (e.now ≡ Event.Write y order v from to) }
{
    match *e {
        Event::Write {
            y: place,
            order: kind,
            v: value,
            from: begin,
            to: end,
        } => {
            if place != y {
                return false;
            }
            if kind != order {
                return false;
            }
            if value != v {
                return false;
            }
            if begin != from {
                return false;
            }
            end == to
        }
        _ => false,
    }
}

fn is_update(e: &Event, y: u32, order: Order, old: Val, new: Val, read: u64, to: u64) -> bool
    ensures { IsTrue result ↔ (e.now ≡ Event.Update y order old new read to) }
{
    match *e {
        Event::Update {
            y: place,
            order: kind,
            old: before,
            new: after,
            read: begin,
            to: end,
        } => {
            if place != y {
                return false;
            }
            if kind != order {
                return false;
            }
            if before != old {
                return false;
            }
            if after != new {
                return false;
            }
            if begin != read {
                return false;
            }
            end == to
        }
        _ => false,
    }
}

fn is_miss(e: &Event, y: u32, order: Order, old: Val, read: u64) -> bool
    ensures { IsTrue result ↔ (e.now ≡ Event.Miss y order old read) }
{
    match *e {
        Event::Miss {
            y: place,
            order: kind,
            old: before,
            read: at,
        } => {
            if place != y {
                return false;
            }
            if kind != order {
                return false;
            }
            if before != old {
                return false;
            }
            at == read
        }
        _ => false,
    }
}

fn is_fence(e: &Event, order: Order) -> bool
    ensures { IsTrue result ↔ (e.now ≡ Event.Fence order) }
{
    match *e {
        Event::Fence { order: kind } => kind == order,
        _ => false,
    }
}

fn is_print(e: &Event, v: i64) -> bool
    ensures { IsTrue result ↔ (e.now ≡ Event.Print v) }
{
    match *e {
        Event::Print { v: value } => value == v,
        _ => false,
    }
}

fn is_fail(e: &Event, cause: Cause) -> bool
    ensures { IsTrue result ↔ (e.now ≡ Event.Fail cause) }
{
    match *e {
        Event::Fail { cause: why } => why == cause,
        _ => false,
    }
}

fn is_fail_compare(e: &Event, y: u32, read: u64) -> bool
    ensures { IsTrue result ↔ (e.now ≡ Event.FailCompare y read) }
{
    match *e {
        Event::FailCompare { y: place, read: at } => place == y && at == read,
        _ => false,
    }
}

fn is_finish(e: &Event) -> bool
    ensures { IsTrue result ↔ (e.now ≡ Event.Finish) }
{
    matches!(*e, Event::Finish)
}

fn is_spend(e: &Event) -> bool
    ensures { IsTrue result ↔ (e.now ≡ Event.Spend) }
{
    matches!(*e, Event::Spend)
}

/// Whether two events are the same.
pub fn is_same_event(a: &Event, b: &Event) -> bool
    ensures { IsTrue result ↔ (a.now ≡ b.now) }
{
    match *b {
        Event::NaRead { x, v } => is_na_read(a, x, v),
        Event::NaWrite { x, v, version } => is_na_write(a, x, v, version),
        Event::Read { y, order, v, to } => is_read(a, y, order, v, to),
        Event::Write {
            y,
            order,
            v,
            from,
            to,
        } => is_write(a, y, order, v, from, to),
        Event::Update {
            y,
            order,
            old,
            new,
            read,
            to,
        } => { is_update(a, y, order, old, new, read, to) }
        Event::Miss {
            y,
            order,
            old,
            read,
        } => is_miss(a, y, order, old, read),
        Event::Fence { order } => is_fence(a, order),
        Event::Print { v } => is_print(a, v),
        Event::Fail { cause } => is_fail(a, cause),
        Event::FailCompare { y, read } => is_fail_compare(a, y, read),
        Event::Finish => is_finish(a),
        Event::Spend => is_spend(a),
    }
}
