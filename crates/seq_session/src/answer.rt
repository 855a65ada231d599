//! What a session gives.
use seq_text::SeqRule;
use validator::Fault;
use values_undef::Bytes;

/// What `seq` answers to an input and the name of a function.
#[derive(Drop)]
pub enum SeqAnswer {
    /// The input breaks this rule, here: lines and columns count from 1.
    Refused {
        rule: SeqRule,
        line: u32,
        column: u32,
    },
    /// Locations, threads, or names or parameters of functions differ.
    OtherShape,
    /// The target's function of this number may not stand for the source's: its first fault.
    RefusedFunction {
        function: u32,
        site: u32,
        why: Fault,
    },
    /// The lines of the trace of the function's target and source.
    Played {
        text: Bytes,
    },
}
