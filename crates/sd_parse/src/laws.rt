//! Laws of the reader: each text has one answer, and a text that only begins a program is refused at its end.
ghost use Rattle.sd_parse.specs.Laws.{MissingAtEnd, OneAnswer, SomeAnswer};

/// A text has one answer at most, unless memory runs out: its program, or the one refusal that is its own.
pub fn one_answer()
    ensures { OneAnswer }
{}

/// A text has an answer besides that memory runs out.
pub fn some_answer()
    ensures { SomeAnswer }
{}

/// Where a token is missing at the end of the text, as its last `}`, the refusal stands at the end.
pub fn missing_at_end()
    ensures { MissingAtEnd }
{}
