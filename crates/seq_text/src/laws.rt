//! Laws about inputs: functions with an empty body, whose contracts are the laws.

ghost use Rattle.seq_text.specs.Laws.{SessionsReadOrAreRefused, SessionsReadInOneWay, SessionsThatReadAreNotRefused, SessionsHaveOneFirstRefusal};

/// Each input reads as one session, or has one first refusal.
pub fn sessions_have_one_answer()
    ensures some { SessionsReadOrAreRefused }
    ensures one { SessionsReadInOneWay }
    ensures apart { SessionsThatReadAreNotRefused }
    ensures refusal { SessionsHaveOneFirstRefusal }
{}
