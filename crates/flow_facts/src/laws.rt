//! Laws of levels, each the contract of a function that does nothing.
ghost use Rattle.flow_facts.specs.Laws.{PairsAreMadeOrKept, LevelsComeFrom, LevelsGoStepByStep, LevelsAreLowest, LevelsExist, LevelsAreOne, BestIsOne, TablesTellTheBest, BothKnowMore, TransfersCompose, TransfersMeet, TransfersRepeat};

/// One transfer after the other is a transfer.
pub fn transfers_compose()
    ensures { TransfersCompose }
{}

/// The lower of two transfers is a transfer.
pub fn transfers_meet()
    ensures { TransfersMeet }
{}

/// Any number of turns are a transfer.
pub fn transfers_repeat()
    ensures { TransfersRepeat }
{}

/// A pair above nothing was made by the statement, or kept by it.
#[tactic(auto, using(crate::proofs::KeptLaws::made_or_kept))]
pub fn pairs_are_made_or_kept()
    ensures { PairsAreMadeOrKept }
{}

/// The same in the kind of both.
#[tactic(auto, using(crate::proofs::KeptLaws::levels_come_from))]
pub fn levels_come_from()
    ensures { LevelsComeFrom }
{}

/// One statement more on a path is one step more.
#[tactic(auto, using(crate::proofs::LevelLaws::levels_go))]
pub fn levels_go_step_by_step()
    ensures { LevelsGoStepByStep }
{}

/// The level before a site is at most the level along each path that leads there.
#[tactic(auto, using(crate::proofs::LevelLaws::levels_are_lowest))]
pub fn levels_are_lowest()
    ensures { LevelsAreLowest }
{}

/// At each site each pair has a level.
#[tactic(auto, using(crate::proofs::LevelLaws::levels_exist))]
pub fn levels_exist()
    ensures { LevelsExist }
{}

/// It has one alone.
#[tactic(auto, using(crate::proofs::LevelLaws::levels_are_one))]
pub fn levels_are_one()
    ensures { LevelsAreOne }
{}

/// There is one least atom above nothing.
#[tactic(auto, using(crate::proofs::TableLaws::best_is_one))]
pub fn best_is_one()
    ensures { BestIsOne }
{}

/// The least atom of a table is the least over all paths.
#[tactic(auto, using(crate::proofs::TableLaws::best_of_table))]
pub fn tables_tell_the_best()
    ensures { TablesTellTheBest }
{}

/// Both kinds of facts know at least what one knows.
#[tactic(auto, using(crate::proofs::LevelLaws::both_know_more))]
pub fn both_know_more()
    ensures { BothKnowMore }
{}
