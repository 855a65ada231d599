//! Why an input of `litmus` is refused.
ghost use Rattle.std.specs.Prelude.{◌≡◌};
ghost use Rattle.il_reader.specs.Refusal.{fault_map, ruled};
ghost use Rattle.litmus_text.specs.Refusals.{litmus_rule_word};
ghost use Rattle.litmus_text.specs.declared.fault.LitmusRule.TheVariants.{Grammar};

use il_parser::{InputFault, Rule};

/// The rule that an input breaks.
#[derive(Clone, Copy, PartialEq, Eq)]
pub enum LitmusRule {
    /// A line after the line `expect` is no expectation, or is one too many.
    X,
    /// A rule of the program's text.
    Grammar { rule: Rule },
}

/// A fault of the program, as one of the input.
pub(crate) fn input_fault(fault: InputFault<Rule>) -> InputFault<LitmusRule>
    ensures { result ≡ fault_map (ruled Grammar) fault }
{
    fault.map(|rule| LitmusRule::Grammar { rule })
}

impl LitmusRule {
    /// The word by which a refusal names the rule.
    pub fn word(self) -> &'static str
        ensures { result.now ≡ litmus_rule_word self }
    {
        match self {
            LitmusRule::X => "X",
            LitmusRule::Grammar { rule } => rule.word(),
        }
    }
}
