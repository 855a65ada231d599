//! The rows of a table, written with the journals that they are lifted to.
ghost use Rattle.std.specs.Prelude.{◌≡◌, IfOk, map};
ghost use Rattle.std.specs.List.{All};
ghost use Rattle.std.specs.Option.{option_map_or};
ghost use Rattle.view_machine.specs.Runs.{IsJournalRun};
ghost use Rattle.refinement.specs.Playings.{AreFew};
ghost use Rattle.simulation.specs.Chain.{AreAcceptedTargets};
ghost use Rattle.reports.specs.Targets.{target_program};
ghost use Rattle.litmus.specs.declared.table.Sample.{Sample};
ghost use Rattle.litmus_session.specs.Session.{AreRowsText, IsRowText, outcome_of_row};

use flow_summary::Summed;
use litmus::{RunOutcome, Sample, outcome_of};
use litmus_text::push_outcome;
use message_memory::MessageMemory;
use pass_chain::ProgramChain;
use reports::target;
use simulation::lift_chain;
use std::alloc::Global;
use values_undef::{Entry, Journal, NoMemory};

/// The text of the rows, and what each comes to.
#[derive(Drop)]
pub(crate) struct Written {
    pub(crate) text: Vec<u8>,
    pub(crate) outcomes: Vec<RunOutcome>,
}

/// The entries of the journal that a journal was lifted to, which are its own where it is none.
fn lifted<'a>(journal: &'a Journal, source: Option<&'a Journal>) -> &'a [Entry]
    ensures { result.now ≡ option_map_or (λ s. s.now) source.entry journal.now }
{
    match source {
        Some(source) => source.entries.as_slice(),
        None => journal.entries.as_slice(),
    }
}

/// The text of a row with its outcome.
fn row_text<M: MessageMemory>(
    alloc: Global,
    chain: &ProgramChain,
    sample: &Sample,
    outcome: &RunOutcome,
) -> Result<Vec<u8>, NoMemory>
    requires accepted { AreAcceptedTargets chain.now }
    requires run { IsJournalRun (target_program chain.now) sample.now.journal }
    requires few { AreFew sample.now.journal }
    requires outcome { outcome.now ≡ outcome_of_row (target_program chain.now) sample.now }
    ensures { IfOk result (λ text. IsRowText chain.now.source (target_program chain.now) sample.now text.items) }
{
    let source = lift_chain::<M, Summed>(alloc, &Summed, chain, &sample.journal)?;
    let entries = lifted(&sample.journal, source.as_ref());
    let mut text = Vec::new(alloc);
    push_outcome(
        &mut text,
        target(chain),
        sample,
        outcome.outputs.as_slice(),
        entries,
    )?;
    Ok(text)
}

/// The rows of the last program of a chain, whose journals are lifted to the first.
pub(crate) fn rows<M: MessageMemory>(
    alloc: Global,
    chain: &ProgramChain,
    samples: &[Sample],
) -> Result<Written, NoMemory>
    requires accepted { AreAcceptedTargets chain.now }
    requires runs { All (λ (s : Sample). IsJournalRun (target_program chain.now) s.journal) samples.now }
    requires few { All (λ (s : Sample). AreFew s.journal) samples.now }
    ensures text { IfOk result (λ rows. AreRowsText chain.now.source (target_program chain.now) samples.now rows.text.items) }
    ensures outcomes { IfOk result (λ rows. rows.outcomes.items ≡ map (outcome_of_row (target_program chain.now)) samples.now) }
{
    let threads = target(chain).threads.len() as u32;
    let mut text = Vec::new(alloc);
    let mut outcomes = Vec::new(alloc);
    for sample in samples {
        let outcome = outcome_of(alloc, &sample.journal, threads)?;
        let row = row_text::<M>(alloc, chain, sample, &outcome)?;
        text.extend_from_slice(row.as_slice())?;
        outcomes.push(outcome)?;
    }
    Ok(Written { text, outcomes })
}
