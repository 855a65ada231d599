//! Runs of a pair.
ghost use Rattle.std.specs.Prelude.{◌≡◌, [], ◌<◌, ◌≤◌, ◌^◌, length, IfOk, IfErr};
ghost use Rattle.std.specs.List.{AllByRecursion};
ghost use Rattle.thread_core.specs.Programs.{IsProperProgram};
ghost use Rattle.seq_semantics.specs.Seq.{seq_begun};
ghost use Rattle.seq_semantics.specs.Held.{seq_in, IsSeqOf};
ghost use Rattle.seq_pair.specs.Answers.{IsTraceOf, IsFaultOf};
ghost use Rattle.seq_pair.specs.Labels.{LabelMatches};
ghost use Rattle.seq_pair.specs.Laws.{IsAcceptedPair};
ghost use Rattle.seq_pair.specs.Pair.{pair_begun, pair_end, parameter_count};
ghost use Rattle.seq_pair.specs.Pairing.{pair_in, ArePaired, IsPairOf};

use crate::event::EnvEvent;
use crate::pairing::Pairing;
use crate::stage::Stage;
use crate::trace::{PairFault, PairLabels, PairTrace};
use crate::{functions, labels, laws};
use il_syntax::Program;
use seq_semantics::SeqState;
use std::alloc::Global;
use values_undef::{NoMemory, Val, Vals};

/// A function before it is given values.
fn begun(alloc: Global, p: &Program, f: u32) -> Result<SeqState, NoMemory>
    requires proper { IsProperProgram p.now }
    requires there { f < length p.now.functions }
    requires few { parameter_count p.now f ≤ 8 }
    ensures state { IfOk result (λ s. seq_in p.now s ≡ seq_begun p.now f []) }
    ensures program { IfOk result (λ s. IsSeqOf p.now s) }
{
    let zeros = [Val::Def(0); 8];
    SeqState::start(alloc, p, f, &zeros[..functions::parameter_count(p, f)])
}

/// The pair before the first event.
fn begin(alloc: Global, p: &Program, q: &Program, f: u32) -> Result<Pairing, NoMemory>
    requires programs { ArePaired p.now q.now f }
    ensures state { IfOk result (λ s. pair_in p.now q.now s ≡ pair_begun p.now q.now f) }
    ensures pair { IfOk result (λ s. IsPairOf p.now q.now f s) }
{
    Ok(Pairing {
        stage: Stage::AtEntry {
            targets: Vals::new(),
            sources: Vals::new(),
        },
        target: begun(alloc, q, f)?,
        source: begun(alloc, p, f)?,
        labels: PairLabels::new(alloc),
    })
}

/// Its trace.
fn trace_of(pair: Pairing) -> PairTrace
    ensures labels { result.labels ≡ pair.labels }
    ensures end { result.end ≡ pair_end pair.stage }
{
    let end = labels::pair_end(&pair.stage);
    PairTrace {
        labels: pair.labels,
        end,
    }
}

/// Runs target and source of an accepted function together, from its entry on, each alone in the
/// environment that the events play, and answers what both were seen to do: exactly the trace of these
/// events, or exactly the first event that is not lawful where it stands. The labels of an accepted pair
/// match, each being the same for both, with values of the target below those of the source. The target fails
/// only where the source has failed, and comes to its end together with the source. The idea is the
/// refinement of SEQ by Cho, Lee, Lee, Hur and Lahav (PLDI 2022). The only other error is want of memory.
pub fn seq_pair(
    alloc: Global,
    source: &Program,
    target: &Program,
    function: u32,
    events: &[EnvEvent],
) -> Result<PairTrace, PairFault>
    requires accepted { IsAcceptedPair source.now target.now function }
    requires few { length events.now < 2 ^ 32 }
    ensures trace { IfOk result (λ t. IsTraceOf source.now target.now function events.now t) }
    ensures matching { IfOk result (λ t. AllByRecursion LabelMatches t.labels) }
    ensures fault { IfErr result (λ fault. IsFaultOf source.now target.now function events.now fault) }
{
    laws::pairs_stay_related();
    laws::pairs_stay_in_step();
    let mut pair = begin(alloc, source, target, function)?;
    for at in 0..events.len() {
        let event = &events[at];
        if !pair.admits(source, target, function, event) {
            return Err(PairFault::Event { at: at as u32 });
        }
        pair.play(alloc, source, target, function, event)?;
    }
    Ok(trace_of(pair))
}
