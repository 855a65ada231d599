//! What threads may be handed and may share.
ghost use Rattle.std.specs.Prelude.{◌≡◌};

use crate::pass::Pass;
use crate::shared::Shared;
use message_memory::MessageMemory;

/// Takes what threads may be handed.
fn handed<T: Send>(value: T) -> T
    ensures { result ≡ value }
{
    value
}

/// Takes what threads may share.
fn shared<T: Sync>(value: &T) -> &T
    ensures { result.now ≡ value.now }
{
    value
}

/// A pass may be handed to another thread.
pub fn hand_over<M: MessageMemory>(pass: Pass<M>) -> Pass<M>
    ensures { result ≡ pass }
{
    handed(pass)
}

/// Threads may share the memory.
pub fn share<M: MessageMemory>(memory: &Shared<M>) -> &Shared<M>
    ensures { result.now ≡ memory.now }
{
    shared(memory)
}
