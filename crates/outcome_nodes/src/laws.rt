//! Laws over the definitions, each the contract of a function that does nothing.
ghost use Rattle.outcome_nodes.specs.Laws.{NothingIsMissed};
ghost use Rattle.outcome_nodes.specs.Moved.{RunsAreMoved};
ghost use Rattle.outcome_nodes.specs.Reached.{NodesAreOfRuns, NodesAreTold, FailuresAreOfRuns, EndsAreOfRuns};
ghost use Rattle.outcome_nodes.specs.Outcome.{ShownAreOutcomes};
ghost use Rattle.outcome_nodes.specs.Standing.{RunsHaveOneNode};

/// An outcome is one of a run that is complete for the budget exactly where it is shown by a list of nodes that moves
/// lead to, which has the first node and with each node those that its moves lead to.
pub fn shown_are_outcomes()
    ensures { ShownAreOutcomes }
{}

/// A list of nodes that has the first one, and with each node those that its moves lead to, shows how each run ends that
/// is complete for the budget, whatever its timestamps and its order, with a memory that is alike to the run's.
pub fn nothing_is_missed()
    ensures { NothingIsMissed }
{}

/// A run told with other timestamps of one location, in the same order, is a run.
pub fn runs_are_moved()
    ensures { RunsAreMoved }
{}

/// Each node that moves lead to stands for a state of a run, with its very timestamps.
pub fn nodes_are_of_runs()
    ensures { NodesAreOfRuns }
{}

/// A run has one node that stands for the state in which it ends.
pub fn runs_have_one_node()
    ensures { RunsHaveOneNode }
{}

/// A node that moves lead to is known by the events of its threads, without their timestamps, its views and its memory.
pub fn nodes_are_told()
    ensures { NodesAreTold }
{}

/// A move that fails, and a node in which no thread goes on, are the end of a run that is complete for the budget, with
/// what the node has printed and its memory.
pub fn outcomes_are_of_runs()
    ensures failures { FailuresAreOfRuns }
    ensures ends { EndsAreOfRuns }
{}
