//! The table of levels by examples.
ghost use Rattle.flow_summary.specs.Examples.{LevelsByExample};

/// What a release, a loop that acquires and releases, a store on one path, fences and a loop that stores do
/// to the level of one pair, at the least over all paths.
#[tactic(auto, using(crate::proofs::ExampleLaws::levels_by_example))]
pub fn levels_by_example()
    ensures { LevelsByExample }
{}
