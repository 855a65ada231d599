//! Laws over the definitions, each the contract of a function that does nothing.
ghost use Rattle.memory_likeness.specs.Laws.{AccessesAreFollowed, OpeningsAreAlike, MovedIsAlike};
ghost use Rattle.memory_likeness.specs.Moved.{StepsAreMoved};

/// Each access of a memory is followed by one of a memory that is alike to it, after room has been made, and leaves them
/// alike.
pub fn accesses_are_followed()
    ensures { AccessesAreFollowed }
{}

/// The first memory is alike to itself.
pub fn openings_are_alike()
    ensures { OpeningsAreAlike }
{}

/// What is alike to a memory is alike to it with the timestamps of a location moved.
pub fn moved_is_alike()
    ensures { MovedIsAlike }
{}

/// A step told with other timestamps of one location, in the same order, is a step, with the same event and state told so.
pub fn steps_are_moved()
    ensures { StepsAreMoved }
{}
