//! What target and source are seen to do together.
ghost use Rattle.std.specs.Prelude.{◌≡◌, [], ◌∷◌, ◌++◌, IfOk};
ghost use Rattle.seq_pair.specs.declared.trace.PairFault.TheVariants as faults;

use seq_semantics::Seen;
use std::alloc::Global;
use std::marker::Model;
use values_undef::NoMemory;

/// What target and source are seen to do in one step. At least one of the two is seen by others.
#[derive(Drop)]
pub struct PairLabel {
    /// What the target is seen to do.
    pub target: Seen,
    /// What the source is seen to do.
    pub source: Seen,
}

/// Labels in order.
#[derive(Drop)]
pub struct PairLabels {
    /// The labels.
    pub labels: Vec<PairLabel>,
}

impl Model for PairLabels {
    ghost use Rattle.std.specs.Prelude.{List};
    ghost use Rattle.seq_pair.specs.declared.trace.PairLabel.{PairLabel};

    ghost Value = { List PairLabel };

    ghost view = { λ l. l.labels.items };
}

impl PairLabels {
    /// No labels.
    pub(crate) fn new(alloc: Global) -> PairLabels
        ensures { result ≡ [] }
    {
        PairLabels {
            labels: Vec::new(alloc),
        }
    }

    /// One more label.
    pub(crate) fn push(&mut self, label: PairLabel) -> Result<(), NoMemory>
        ensures { IfOk result (λ _. self.new ≡ self.old ++ label ∷ []) }
    {
        self.labels.push(label)?;
        Ok(())
    }
}

/// How a pair of runs ends.
#[derive(Clone, Copy)]
pub enum PairEnd {
    /// Both are at the end of the function.
    Same,
    /// The source failed, so nothing more is claimed of the target.
    SourceFailed,
    /// The events ran out before.
    Cut,
}

/// What a list of lawful events makes of a pair.
#[derive(Drop)]
pub struct PairTrace {
    /// What was seen, in order.
    pub labels: PairLabels,
    /// How the two ended.
    pub end: PairEnd,
}

/// Why there is no trace.
#[derive(Clone, Copy)]
pub enum PairFault {
    /// This event is the first that isn't lawful; the first of all has number 0.
    Event { at: u32 },
    /// Want of memory.
    NoMemory,
}

impl From<NoMemory> for PairFault {
    ghost from_gives = { λ _ e. e ≡ faults.NoMemory };

    fn from(_: NoMemory) -> PairFault {
        PairFault::NoMemory
    }
}
