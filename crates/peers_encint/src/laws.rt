ghost use Rattle.peers_encint.specs.IntegerLaws.{IsSpelled, HasOneSpelling, MeansOneNumber, BeginsNoOther, SpellsBytes, IsLongerForGreater, HasLengthWithin, FitsTheTable, IsReadAgain, IsSpelledAsRead, StaysRead};

/// Each number has exactly one spelling, each spelling means one number, and no spelling is a prefix of another.
pub fn one_spelling()
    ensures spelled { IsSpelled }
    ensures same { HasOneSpelling }
    ensures number { MeansOneNumber }
    ensures apart { BeginsNoOther }
    ensures bytes { SpellsBytes }
{}

/// Bounds the length of spellings: a greater number's is never shorter, each has 1 to 10 bytes, and the lengths are
/// those of the protocol's table.
pub fn lengths()
    ensures longer { IsLongerForGreater }
    ensures within { HasLengthWithin }
    ensures table { FitsTheTable }
{}

/// Reading a spelling returns its number, the bytes of a number read are its spelling, and appending bytes changes no
/// result but `Short`.
pub fn reading_of_spellings()
    ensures again { IsReadAgain }
    ensures takes { IsSpelledAsRead }
    ensures more { StaysRead }
{}
