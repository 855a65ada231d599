//! Forwarding by stores: an na load becomes a copy of what was stored last, on every path.
//!
//! `forwarding/specs/Forwarded` says what the result is, in the kind `Stores` of `flow_facts`: a store is
//! forwarded across an acquire and across a release, but not across a release and a later acquire.
#![tactic(auto)]

ghost use Rattle.std.specs.Prelude.{◌≤◌, IfOk};
ghost use Rattle.il_syntax.specs.Statements.{site_count};
ghost use Rattle.forwarding.specs.Forwarded.{IsForwarded};

use flow_facts::{Facts, Kind};
use forwarding::forward;
use il_syntax::Function;
use std::alloc::Global;
use values_undef::NoMemory;

/// The function with each na load whose location has an atom that was stored to it and is known there, on
/// every path to the load, turned into a copy of the least such atom. All else stays, and what fits a
/// program before fits it after. The condition is at most 4096 statements.
pub fn forward_stores<F: Facts>(
    alloc: Global,
    facts: &F,
    f: &Function,
) -> Result<Function, NoMemory>
    requires { site_count f.now.body.statements ≤ 4096 }
    ensures { IfOk result (λ new. IsForwarded Kind.Stores f.now new) }
{
    forward(alloc, facts, f, Kind::Stores)
}
