//! Laws about answers: a function with an empty body, whose contract are the laws.
ghost use Rattle.seq_session.specs.Laws.{SessionsHaveAnAnswer, SessionsHaveOneAnswer};

/// An input and the name of a function have one answer at most, and one where the function has a verdict.
pub fn sessions_have_one_answer()
    ensures some { SessionsHaveAnAnswer }
    ensures one { SessionsHaveOneAnswer }
{}
