//! Laws of the cut into tokens: a text has one list of tokens or one refusal, and not both.
ghost use Rattle.sd_lex.specs.Laws.{NeverBoth, OneList, OneRefusal, SomeAnswer};

/// A text that has tokens isn't refused.
pub fn never_both()
    ensures { NeverBoth }
{}

/// A text has these tokens and no others.
pub fn one_list()
    ensures { OneList }
{}

/// A text that is refused has one refusal.
pub fn one_refusal()
    ensures { OneRefusal }
{}

/// A text has tokens, or a refusal.
pub fn some_answer()
    ensures { SomeAnswer }
{}
