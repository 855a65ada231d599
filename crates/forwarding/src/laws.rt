//! Laws of forwarding, each the contract of a function that does nothing.
ghost use Rattle.forwarding.specs.Laws.{ForwardedIsOne, ForwardedFits};

/// A function is forwarded in one way.
pub fn forwarded_is_one()
    ensures { ForwardedIsOne }
{}

/// What fits a program before fits it after.
pub fn forwarded_fits()
    ensures { ForwardedFits }
{}
