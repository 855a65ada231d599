//! What holds of threads that have worked apart on one memory.
ghost use Rattle.threaded_runner.specs.Laws.{WorkedHistoriesRun};

/// Where each thread has worked, the journal of the history that they have seen is a run, complete and drawn.
pub fn worked_histories_run()
    ensures { WorkedHistoriesRun }
{}
