//! How large a program may be. What a limit bounds is checked where the program is read.

/// The most non-atomic locations, and the most atomic ones.
pub const MOST_LOCATIONS: usize = 16;

/// The most threads.
pub const MOST_THREADS: usize = 16;

/// The most calls that stand in one another, and the most blocks.
pub const MOST_DEPTH: usize = 32;

/// The most registers of a function, its parameters among them.
pub const MOST_REGISTERS: usize = 64;

/// The most statements of a function, those of blocks among them.
pub const MOST_STATEMENTS: usize = 4096;
