//! Why an input of `seq` is refused.
ghost use Rattle.std.specs.Prelude.{◌≡◌};
ghost use Rattle.il_reader.specs.Refusal.{fault_map, ruled};
ghost use Rattle.seq_text.specs.Refusals.{seq_rule_word};
ghost use Rattle.seq_text.specs.declared.fault.SeqRule.TheVariants.{Grammar};

use il_parser::{InputFault, Rule};

/// The rule that an input breaks.
#[derive(Clone, Copy, PartialEq, Eq)]
pub enum SeqRule {
    /// No line is exactly `target`.
    T,
    /// No line after the line `target` is exactly `events`; or a line after that is no event, is one too many, or is
    /// an event that is not lawful where it stands.
    E,
    /// The source has no function of the name that was given.
    F,
    /// A rule of the programs' texts.
    Grammar { rule: Rule },
}

/// A fault of the two programs, as one of the input.
pub(crate) fn session_fault(fault: InputFault<Rule>) -> InputFault<SeqRule>
    ensures { result ≡ fault_map (ruled Grammar) fault }
{
    fault.map(|rule| SeqRule::Grammar { rule })
}

impl SeqRule {
    /// The word by which a refusal names the rule.
    pub fn word(self) -> &'static str
        ensures { result.now ≡ seq_rule_word self }
    {
        match self {
            SeqRule::T => "T",
            SeqRule::E => "E",
            SeqRule::F => "F",
            SeqRule::Grammar { rule } => rule.word(),
        }
    }
}
