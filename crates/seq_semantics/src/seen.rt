//! What is seen of a step, and what a function waits for.
use values_undef::{Cause, Order, Val, Vals};

/// What a function waits for.
#[derive(Clone, Copy)]
pub enum Wants {
    /// To make a step.
    Step,
    /// To be given the value of an atomic read, of an update or of a call.
    Value,
    /// To pass a fence that acquires.
    Fence,
    /// Nothing: it has been seen to end or to fail.
    Ended,
}

/// What is seen of a step. `y` counts the atomic locations from 0.
#[derive(Drop)]
pub enum Seen {
    /// A step within the function.
    Silent,
    /// An access to a non-atomic location.
    Plain,
    /// An atomic read of this value.
    Read {
        y: u32,
        order: Order,
        v: Val,
    },
    /// An atomic write of this value.
    Write {
        y: u32,
        order: Order,
        v: Val,
    },
    /// An update that wrote `new` over `old`.
    Update {
        y: u32,
        order: Order,
        old: Val,
        new: Val,
    },
    /// A compare-exchange that found another value than it expected, and wrote nothing.
    Miss {
        y: u32,
        order: Order,
        old: Val,
    },
    /// A fence.
    Fence {
        order: Order,
    },
    /// A number was printed.
    Print {
        v: i64,
    },
    /// A call, with the values of its arguments.
    Call {
        function: u32,
        args: Vals,
    },
    /// The end of the function, with its result.
    End {
        v: Val,
    },
    /// A failure, and why. Exactly at a compare-exchange that met `undef` is `compare` true and is there no
    /// cause.
    Failed {
        compare: bool,
        cause: Option<Cause>,
    },
}
