//! What the environment does.
use values_undef::Val;

/// An event of the environment of a pair, or a leave that it gives to target and source to go on. Values of
/// the target come before those of the source, and have to be below them. Which events are lawful where is
/// `is_lawful` in `specs/Pair.antt`.
#[derive(Clone, Copy)]
pub enum EnvEvent {
    /// The function begins, with the values that its parameters were given.
    Enter,
    /// Up to `n` steps of the target, each with the source's partner; it stops early where a value or a fence
    /// is wanted and at the end.
    Run { n: u32 },
    /// A parameter's value, or the value that is wanted: what an atomic statement reads, or what a call
    /// gives.
    Value { target: Val, source: Val },
    /// Both lose the location `x`.
    Take { x: u32 },
    /// The source alone loses the location `x`.
    Hide { x: u32 },
    /// Both get the location `x` back, with these values.
    Gain { x: u32, target: Val, source: Val },
    /// The target alone gets the location `x` back, with this value.
    See { x: u32, v: Val },
    /// Both make the fence that is wanted.
    Pass,
}
