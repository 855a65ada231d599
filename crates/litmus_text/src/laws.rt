//! Laws about inputs: functions with an empty body, whose contracts are the laws.

ghost use Rattle.litmus_text.specs.Laws.{LitmusInputsReadOrAreRefused, LitmusInputsReadInOneWay, LitmusInputsThatReadAreNotRefused, LitmusInputsHaveOneFirstRefusal, OutputsAloneAreNamed};

/// Each input reads in one way, or has one first refusal.
pub fn litmus_inputs_have_one_answer()
    ensures some { LitmusInputsReadOrAreRefused }
    ensures one { LitmusInputsReadInOneWay }
    ensures apart { LitmusInputsThatReadAreNotRefused }
    ensures refusal { LitmusInputsHaveOneFirstRefusal }
{}

/// The expectations of an input where last values may not be named name outputs alone.
pub fn outputs_alone_are_named()
    ensures { OutputsAloneAreNamed }
{}
