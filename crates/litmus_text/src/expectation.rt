//! What is expected of the outcomes.

use litmus::Printed;
use std::marker::Model;
use values_undef::Val;

/// The last value of a location, which is the one of this place among those that may be named.
#[derive(Clone, Copy)]
pub struct LastValue {
    pub place: usize,
    pub value: Val,
}

/// A word of an expectation.
#[derive(Clone, Copy)]
pub enum ExpectedWord {
    /// A thread prints a value.
    Output { output: Printed },
    /// A location has a last value.
    Last { last: LastValue },
}

/// Some outcome whose ending is done has just the outputs of these words, by thread, and the last values of them; or none has.
#[derive(Drop)]
pub struct Expectation {
    pub some: bool,
    pub words: Vec<ExpectedWord>,
}

impl Model for Expectation {
    ghost use Rattle.litmus_text.specs.Expectation.{Expected};

    ghost Value = { Expected };

    ghost view = { λ e. record { some = e.some; words = e.words.items } };
}
