//! What the pairs of two programs come to.
ghost use Rattle.sd_match.specs.PlainPairs.{PairsArePlain};
ghost use Rattle.sd_match.specs.PlainSpots.{SpotsArePlain};

/// Procedures of one name are paired, and so are loops of one number in paired procedures of the same types, in the
/// order of the old program. A pair is refused exactly where types differ, or where a procedure without a partner is
/// called, and then the first of those is told.
pub fn pairs_are_plain()
    ensures { PairsArePlain }
{}

/// The inputs and the outputs of a pair are exactly its parameters by position, the carried variables of loops by name,
/// and the globals that both programs declare, of which only those that may be modified are outputs. They stand in the
/// order of the old program.
pub fn spots_are_plain()
    ensures { SpotsArePlain }
{}
