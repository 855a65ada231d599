//! Laws of tidied functions, each the contract of a function that does nothing.
ghost use Rattle.tidy.specs.Programs.{TidiedProgramsAreAccepted, TidiedProgramsFit};
ghost use Rattle.tidy.specs.Laws.{TidiedIsAccepted, TidiedFits, TidinessIsOne, YesIsAccepted, TidiedIsYes};

/// A function accepts what it is tidied to.
pub fn tidied_is_accepted()
    ensures { TidiedIsAccepted }
{}

/// It fits wherever the function fits.
#[tactic(auto, using(crate::proofs::Fits::tidied_fits))]
pub fn tidied_fits()
    ensures { TidiedFits }
{}

/// Each function of a program accepts what it is tidied to.
#[tactic(auto, using(crate::proofs::ProgramLaws::programs_accepted))]
pub fn programs_are_accepted()
    ensures { TidiedProgramsAreAccepted }
{}

/// A tidied program is well-formed where the program is.
#[tactic(auto, using(crate::proofs::ProgramLaws::programs_fit))]
pub fn programs_fit()
    ensures { TidiedProgramsFit }
{}

/// Two functions have one answer.
#[tactic(auto, using(crate::proofs::JudgeLaws::tidiness_is_one))]
pub fn tidiness_is_one()
    ensures { TidinessIsOne }
{}

/// It is yes exactly where the one accepts the other.
#[tactic(auto, using(crate::proofs::JudgeLaws::yes_is_accepted))]
pub fn yes_is_accepted()
    ensures { YesIsAccepted }
{}

/// It is yes of what a function is tidied to.
#[tactic(auto, using(crate::proofs::JudgeLaws::tidied_is_yes))]
pub fn tidied_is_yes()
    ensures { TidiedIsYes }
{}
