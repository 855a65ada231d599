//! What the words of a command line may ask for.
ghost use Rattle.std.specs.Prelude.{◌≡◌};
ghost use Rattle.words.specs.declared.command.WordsFault.TheVariants.{NoMemory};

use il_syntax::Name;
use std::alloc::{AllocError, AllocFailed};
use values_undef::Turns;

/// Where the choices of a walk come from.
#[derive(Drop)]
pub enum Drawing {
    /// Each thread draws from a generator of random numbers that this number starts.
    Seed { seed: u64 },
    /// The choices follow this list.
    Picks { list: Turns },
}

/// What is written of a program that is made from a number.
#[derive(Clone, Copy, PartialEq, Eq)]
pub enum Form {
    /// The program's text.
    Text,
    /// What the passes did to it and how a run of it ended, in numbers.
    Summary,
}

/// What the words ask for.
#[derive(Drop)]
pub enum Command {
    /// Read a program and say whether it is one.
    Check,
    /// Optimise a program.
    Opt,
    /// Optimise a program, tidy the registers of the result, and run that as `Walk` does.
    Tidy {
        order: Turns,
        draws: Drawing,
        steps: u64,
    },
    /// Judge whether one program may stand in the place of another.
    Validate,
    /// Play the functions of this name of two programs together, through the events of an environment.
    Seq {
        function: Name,
    },
    /// Run a program on one thread: whose turn it is at first, where the choices come from, and
    /// how many steps each of its threads may make.
    Walk {
        order: Turns,
        draws: Drawing,
        steps: u64,
    },
    /// Run a program on threads of its own: what its choices are drawn from, and how many steps each
    /// of its threads may make.
    Run {
        seed: u64,
        steps: u64,
    },
    /// Judge the journal of a run.
    Replay,
    /// Tell the execution graph of the journal of a run.
    Graph,
    /// Sample the outcomes of a program: the first of the seeds that are sampled, how many they are, and how many steps each
    /// thread of a run may make.
    Litmus {
        seed: u64,
        seeds: u64,
        steps: u64,
    },
    /// List all outcomes of a program: how many steps each thread of a run may make, and to how many nodes the search may come.
    Outcomes {
        steps: u64,
        states: u64,
    },
    /// Tell whether all outcomes of a target are its source's: how many steps each thread of a run may make, and to how many nodes each
    /// search may come.
    Refute {
        steps: u64,
        states: u64,
    },
    /// Make a program of so many functions from a number.
    Gen {
        number: u64,
        functions: u32,
        form: Form,
    },
}

/// Why words gave no command.
#[derive(Drop, Clone, Copy, PartialEq, Eq)]
pub enum WordsFault {
    /// The words mean no command.
    Refused,
    /// There was no memory to read them.
    NoMemory,
}

impl From<AllocError> for WordsFault {
    ghost from_gives = { λ _ e. e ≡ NoMemory };

    fn from(_error: AllocError) -> WordsFault {
        WordsFault::NoMemory
    }
}

impl<T: Drop> From<AllocFailed<T>> for WordsFault {
    ghost from_gives = { λ _ e. e ≡ NoMemory };

    fn from(_error: AllocFailed<T>) -> WordsFault {
        WordsFault::NoMemory
    }
}
