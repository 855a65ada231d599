//! Why a text is not read.

ghost use Rattle.std.specs.Prelude.{◌≡◌};
ghost use Rattle.token_machine.specs.declared.fault.ReadError.TheVariants.{NoMemory};

use std::alloc::{AllocError, AllocFailed};

/// Why a text is refused, and where.
#[derive(Clone, Copy, PartialEq, Eq)]
pub struct Fault<R> {
    pub rule: R,
    /// How many tokens are left there, the one at fault among them: 0 at the end of the text.
    pub left: usize,
}

/// Why a text was not read.
#[derive(Drop)]
pub enum ReadError<R> {
    /// The allocator gave no memory.
    NoMemory,
    /// The text is not of the grammar, or exceeds a limit.
    Fault(Fault<R>),
}

impl<R> From<AllocError> for ReadError<R> {
    ghost from_gives = { λ _ e. e ≡ NoMemory };

    fn from(_e: AllocError) -> ReadError<R> {
        ReadError::NoMemory
    }
}

impl<T: Drop, R> From<AllocFailed<T>> for ReadError<R> {
    ghost from_gives = { λ _ e. e ≡ NoMemory };

    fn from(_e: AllocFailed<T>) -> ReadError<R> {
        ReadError::NoMemory
    }
}
