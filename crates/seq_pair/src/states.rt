//! What a pair looks at in a function alone: its next statement, what it waits for, its permissions.
ghost use Rattle.std.specs.Prelude.{◌≡◌, ◌<◌, length};
ghost use Rattle.thread_core.specs.Programs.{IsProperProgram};
ghost use Rattle.seq_semantics.specs.Seq.{head_in, wants_of, place_in, is_bare};
ghost use Rattle.seq_semantics.specs.Held.{seq_in, IsSeqOf};
ghost use Rattle.seq_pair.specs.Pair.{at_new_load, at_call, hears, wants_step, wants_value, wants_fence, is_shared, is_owned};

use il_syntax::{Program, Stmt};
use seq_semantics::{Perm, SeqState, Wants};

/// The next statement is a load into a register that the source lacks.
pub fn at_new_load(state: &SeqState, p: &Program, old: usize) -> bool
    requires proper { IsProperProgram p.now }
    requires program { IsSeqOf p.now state.now }
    ensures { result ≡ at_new_load old (head_in (seq_in p.now state.now)) }
{
    match state.head(p) {
        Some(Stmt::Load { r, .. }) => old <= *r as usize,
        _ => false,
    }
}

/// The next statement is a call.
pub fn at_call(state: &SeqState, p: &Program) -> bool
    requires proper { IsProperProgram p.now }
    requires program { IsSeqOf p.now state.now }
    ensures { result ≡ at_call (head_in (seq_in p.now state.now)) }
{
    match state.head(p) {
        Some(Stmt::Call { .. }) => true,
        _ => false,
    }
}

/// Others may be heard at the next statement.
pub fn hears(state: &SeqState, p: &Program) -> bool
    requires proper { IsProperProgram p.now }
    requires program { IsSeqOf p.now state.now }
    ensures { result ≡ hears (head_in (seq_in p.now state.now)) }
{
    match state.head(p) {
        None => false,
        Some(Stmt::Call { .. }) => true,
        Some(statement) => il_paths::acquires(statement),
    }
}

/// It waits to make a step.
pub fn wants_step(state: &SeqState, p: &Program) -> bool
    requires proper { IsProperProgram p.now }
    requires program { IsSeqOf p.now state.now }
    ensures { result ≡ wants_step (wants_of (seq_in p.now state.now)) }
{
    match state.wants(p) {
        Wants::Step => true,
        _ => false,
    }
}

/// It waits for a value.
pub fn wants_value(state: &SeqState, p: &Program) -> bool
    requires proper { IsProperProgram p.now }
    requires program { IsSeqOf p.now state.now }
    ensures { result ≡ wants_value (wants_of (seq_in p.now state.now)) }
{
    match state.wants(p) {
        Wants::Value => true,
        _ => false,
    }
}

/// It waits to pass a fence.
pub fn wants_fence(state: &SeqState, p: &Program) -> bool
    requires proper { IsProperProgram p.now }
    requires program { IsSeqOf p.now state.now }
    ensures { result ≡ wants_fence (wants_of (seq_in p.now state.now)) }
{
    match state.wants(p) {
        Wants::Fence => true,
        _ => false,
    }
}

/// It has lost the location.
pub fn is_bare(state: &SeqState, x: u32) -> bool
    requires there { x < length state.now.places }
    ensures { result ≡ is_bare (place_in state.now.places x).permission }
{
    match state.perm(x) {
        Perm::Bare => true,
        _ => false,
    }
}

/// It has the location, and others may take it.
pub fn is_shared(state: &SeqState, x: u32) -> bool
    requires there { x < length state.now.places }
    ensures { result ≡ is_shared (place_in state.now.places x).permission }
{
    match state.perm(x) {
        Perm::Shared => true,
        _ => false,
    }
}

/// It has the location, and nobody takes it.
pub fn is_owned(state: &SeqState, x: u32) -> bool
    requires there { x < length state.now.places }
    ensures { result ≡ is_owned (place_in state.now.places x).permission }
{
    match state.perm(x) {
        Perm::Owned => true,
        _ => false,
    }
}
