//! A law about the meaning of words: a function with an empty body, whose contract is the law.
ghost use Rattle.std.specs.Prelude.{◌≡◌};
ghost use Rattle.words.specs.Meaning.{Means};

use crate::command::Command;
use values_undef::Words;

/// Words mean at most one command.
pub fn words_mean_one_command(words: &Words, first: &Command, second: &Command)
    requires first { Means words.now first.now }
    requires second { Means words.now second.now }
    ensures { first.now ≡ second.now }
{}
