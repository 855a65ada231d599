//! What holds of each chooser, and of the words that are drawn.
ghost use Rattle.chooser.specs.Laws.{ChosenAreCandidates, DrawsAreWords, WordsGoOn};

use crate::chooser::Chooser;

/// What is chosen for an access to an atomic location is a candidate, whatever chooses.
#[tactic(auto, using(crate::proofs::Words::chosen_candidate))]
pub fn chosen_are_candidates<C: Chooser>()
    ensures { ChosenAreCandidates C.answer }
{}

/// A draw is the next word of its generator, over the number of choices, and the words after it are left.
#[tactic(auto, using(crate::proofs::Words::first_word, crate::proofs::Words::next_word))]
pub fn draws_are_words()
    ensures first { DrawsAreWords }
    ensures rest { WordsGoOn }
{}
