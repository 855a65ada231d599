//! Forwarding by loads: an na load becomes a copy of the register into which its location was loaded
//! before, on every path.
//!
//! `forwarding/specs/Forwarded` says what the result is, in the kind `Loads` of `flow_facts`: a load is
//! forwarded across a release, but not across an acquire.
#![tactic(auto)]

ghost use Rattle.std.specs.Prelude.{◌≤◌, IfOk};
ghost use Rattle.il_syntax.specs.Statements.{site_count};
ghost use Rattle.forwarding.specs.Forwarded.{IsForwarded};

use flow_facts::{Facts, Kind};
use forwarding::forward;
use il_syntax::Function;
use std::alloc::Global;
use values_undef::NoMemory;

/// The function with each na load whose location is known to be in a register, loaded before on every path
/// to it, turned into a copy of the least such register. All else stays, and what fits a program before
/// fits it after. The condition is at most 4096 statements.
pub fn forward_loads<F: Facts>(alloc: Global, facts: &F, f: &Function) -> Result<Function, NoMemory>
    requires { site_count f.now.body.statements ≤ 4096 }
    ensures { IfOk result (λ new. IsForwarded Kind.Loads f.now new) }
{
    forward(alloc, facts, f, Kind::Loads)
}
