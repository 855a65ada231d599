//! Why a text has no tokens.

ghost use Rattle.std.specs.Prelude.{◌≡◌};
ghost use Rattle.il_lexer.specs.declared.fault.LexFault.TheVariants as faults;

/// Why the tokens of a text are not answered.
#[derive(Clone, Copy)]
pub enum LexFault {
    /// A byte that no text has stands here; it is the first.
    Byte { at: u32 },
    /// The byte here is in no blank and no comment, and begins no token.
    Unknown { at: u32 },
    /// The allocator gave no memory.
    NoMemory,
}

impl From<values_undef::NoMemory> for LexFault {
    ghost from_gives = { λ _ e. e ≡ faults.NoMemory };

    fn from(_: values_undef::NoMemory) -> LexFault {
        LexFault::NoMemory
    }
}
