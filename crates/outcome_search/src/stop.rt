//! Why a search stops.
ghost use Rattle.std.specs.Prelude.{◌≡◌};
ghost use Rattle.outcome_search.specs.declared.stop.Stop.TheVariants as stops;

use std::alloc::AllocFailed;
use values_undef::NoMemory;

/// Why a search stops before its end.
#[derive(Clone, Copy, Debug, PartialEq, Eq)]
pub enum Stop {
    /// Want of memory.
    NoMemory,
    /// There are more nodes than the limit.
    TooMany,
}

impl From<NoMemory> for Stop {
    ghost from_gives = { λ _ e. e ≡ stops.NoMemory };

    fn from(_: NoMemory) -> Stop
        ensures { result ≡ Stop.NoMemory }
    {
        Stop::NoMemory
    }
}

impl<T: Drop> From<AllocFailed<T>> for Stop {
    ghost from_gives = { λ _ e. e ≡ stops.NoMemory };

    fn from(_: AllocFailed<T>) -> Stop
        ensures { result ≡ Stop.NoMemory }
    {
        Stop::NoMemory
    }
}
