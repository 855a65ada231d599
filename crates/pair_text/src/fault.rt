//! Why an input is refused.
ghost use Rattle.std.specs.Prelude.{◌≡◌};
ghost use Rattle.il_reader.specs.Refusal.{fault_map, ruled};
ghost use Rattle.pair_text.specs.Refusals.{pair_rule_word};
ghost use Rattle.pair_text.specs.declared.fault.PairRule.TheVariants.{Grammar};

use il_parser::{InputFault, Rule};

/// The rule that an input breaks.
#[derive(Clone, Copy, PartialEq, Eq)]
pub enum PairRule {
    /// No line is exactly `target`.
    T,
    /// A rule of the programs' texts.
    Grammar { rule: Rule },
}

/// A fault of the two texts, as one of the input.
pub(crate) fn pair_fault(fault: InputFault<Rule>) -> InputFault<PairRule>
    ensures { result ≡ fault_map (ruled Grammar) fault }
{
    fault.map(|rule| PairRule::Grammar { rule })
}

impl PairRule {
    /// The word by which a refusal names the rule.
    pub fn word(self) -> &'static str
        ensures { result.now ≡ pair_rule_word self }
    {
        match self {
            PairRule::T => "T",
            PairRule::Grammar { rule } => rule.word(),
        }
    }
}
