//! What is written down of a step.
ghost use Rattle.std.specs.Prelude.{◌≡◌};
ghost use Rattle.seq_pair.specs.Labels.{is_label, is_failed};
ghost use Rattle.seq_pair.specs.Pair.{stage_after, pair_end};

use crate::stage::Stage;
use crate::trace::PairEnd;
use seq_semantics::Seen;

/// Others see it.
pub fn is_label(seen: &Seen) -> bool
    ensures { result ≡ is_label seen.now }
{
    match seen {
        Seen::Silent | Seen::Plain => false,
        _ => true,
    }
}

/// It is a failure.
pub fn is_failed(seen: &Seen) -> bool
    ensures { result ≡ is_failed seen.now }
{
    match seen {
        Seen::Failed { .. } => true,
        _ => false,
    }
}

/// The stage after a step of both.
pub fn stage_after(target: &Seen, source: &Seen) -> Stage
    ensures { result ≡ stage_after target.now source.now }
{
    if is_failed(source) {
        return Stage::Over {
            end: PairEnd::SourceFailed,
        };
    }
    match target {
        Seen::End { .. } => Stage::Over { end: PairEnd::Same },
        _ => Stage::Inside,
    }
}

/// How a pair ends that is at this stage when the events have run out.
pub fn pair_end(stage: &Stage) -> PairEnd
    ensures { result ≡ pair_end stage.now }
{
    match stage {
        Stage::Over { end } => *end,
        _ => PairEnd::Cut,
    }
}
