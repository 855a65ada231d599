//! The function of a pair.
ghost use Rattle.std.specs.Prelude.{◌≡◌, ◌<◌, Some, length};
ghost use Rattle.thread_core.specs.Programs.{function_at};
ghost use Rattle.seq_pair.specs.Pair.{parameter_count, register_count};

use il_syntax::{Function, Program};

/// The function of this number.
fn function_of(p: &Program, f: u32) -> &Function
    requires there { f < length p.now.functions }
    ensures { function_at p.now f ≡ Some result.now }
{
    &p.functions.as_slice()[f as usize]
}

/// How many parameters it has.
pub fn parameter_count(p: &Program, f: u32) -> usize
    requires there { f < length p.now.functions }
    ensures { result ≡ parameter_count p.now f }
{
    function_of(p, f).params as usize
}

/// How many registers it has.
pub fn register_count(p: &Program, f: u32) -> usize
    requires there { f < length p.now.functions }
    ensures { result ≡ register_count p.now f }
{
    function_of(p, f).registers.len()
}
