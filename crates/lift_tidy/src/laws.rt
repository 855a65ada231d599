//! Laws over the definitions, each the contract of a function that does nothing.
ghost use Rattle.lift_tidy.specs.Laws.{TidiedThreadsGoOn, TidiedSilentStepsArePlayed, TidiedEventsArePlayed, BeginningsAreTidied, TidiedRunsArePlayable};

/// Threads side by side go on side by side.
pub fn threads_go_on()
    ensures { TidiedThreadsGoOn }
{}

/// A silent step of a tidied program is answered by a step of its source.
pub fn silent_steps_are_played()
    ensures { TidiedSilentStepsArePlayed }
{}

/// An event of a tidied program is answered by its source.
pub fn events_are_played()
    ensures { TidiedEventsArePlayed }
{}

/// A tidied program begins beside its source.
pub fn beginnings_are_tidied()
    ensures { BeginningsAreTidied }
{}

/// Each run of a tidied program can be played on its source.
pub fn runs_are_playable()
    ensures { TidiedRunsArePlayable }
{}
