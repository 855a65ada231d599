//! Laws over the definitions, each the contract of a function that does nothing.
ghost use Rattle.litmus.specs.Laws.{CountsSumToTheSeeds, OutcomesAreToldApart, RowsAreRuns, SeedsHaveOneRun, SeedsHaveOneTable};

/// Outcomes are the same exactly where they are equal.
#[tactic(auto, using(crate::proofs::Outcomes::told_apart))]
pub fn outcomes_are_told_apart()
    ensures { OutcomesAreToldApart }
{}

/// A seed has one run, and so many seeds have one table.
pub fn seeds_have_one_table()
    ensures run { SeedsHaveOneRun }
    ensures table { SeedsHaveOneTable }
{}

/// The counts of a table's rows sum to the number of seeds, and each row is a run of one of them.
pub fn rows_are_of_the_seeds()
    ensures counts { CountsSumToTheSeeds }
    ensures runs { RowsAreRuns }
{}
