//! Laws about texts: functions with an empty body, whose contracts are the laws.

ghost use Rattle.text_parts.specs.Division.{DividesAtLine, DividesAtWholeLine, LacksLine, LacksWholeLine};
ghost use Rattle.text_parts.specs.Laws.{DivideOrLack, DivideInOneWay, DividedLackNothing};

/// At a word each text divides in one way, or it lacks the line.
pub fn texts_divide_once()
    ensures some { DivideOrLack DividesAtLine LacksLine }
    ensures one { DivideInOneWay DividesAtLine }
    ensures apart { DividedLackNothing DividesAtLine LacksLine }
{}

/// At a word each text divides at a whole line in one way, or it lacks the whole line.
pub fn texts_divide_once_at_whole_lines()
    ensures some { DivideOrLack DividesAtWholeLine LacksWholeLine }
    ensures one { DivideInOneWay DividesAtWholeLine }
    ensures apart { DividedLackNothing DividesAtWholeLine LacksWholeLine }
{}
