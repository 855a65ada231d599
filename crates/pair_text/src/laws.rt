//! Laws about texts of two programs: functions with an empty body, whose contracts are the laws.

ghost use Rattle.pair_text.specs.Laws.{TextsSpellOrAreRefused, SpelledTextsAreNotRefused, TextsHaveOneFirstRefusal};
ghost use Rattle.pair_text.specs.Laws.{PairsReadOrAreRefused, PairsReadInOneWay, PairsThatReadAreNotRefused, PairsHaveOneFirstRefusal};

/// Two texts spell programs, or they have one first refusal.
pub fn texts_have_one_answer()
    ensures some { TextsSpellOrAreRefused }
    ensures apart { SpelledTextsAreNotRefused }
    ensures one { TextsHaveOneFirstRefusal }
{}

/// Each input reads as one pair, or has one first refusal.
pub fn pairs_have_one_answer()
    ensures some { PairsReadOrAreRefused }
    ensures one { PairsReadInOneWay }
    ensures apart { PairsThatReadAreNotRefused }
    ensures refusal { PairsHaveOneFirstRefusal }
{}
