ghost use Rattle.std.specs.Prelude.{◌≡◌};

use crate::step::{BadLine, StepCause};
use sd_term::{Op, TermId};

/// What a step does to the first open branch.
#[derive(Clone, Copy, Debug)]
pub enum Effect {
    /// The step is bad.
    Bad(BadLine),
    /// A new term, an operation of two terms.
    Grows(Op, TermId, TermId),
    /// A term has a truth value in the branch.
    Adds(TermId, bool),
    /// The branch where a term is true, and the one where it is false.
    Splits(TermId),
    /// The branch is closed.
    Closes,
}

impl Effect {
    /// The step is bad at its first line.
    pub fn bad(cause: StepCause) -> Effect
        ensures { result ≡ Effect.Bad (record { line = 0; cause = cause }) }
    {
        Effect::Bad(BadLine::first(cause))
    }
}
