//! Candidates for facts about all pairs of runs of two procedures.

use sd_term::Kind;
use sqlite_items::Items;

/// How the old and the new value at a place of a pair's inputs, or of its outputs, are related.
#[derive(Clone, Copy, Debug, PartialEq, Eq)]
pub struct Relation {
    pub place: u32,
    pub kind: Kind,
}

/// What a candidate claims of the ends of two runs.
#[derive(Clone, Copy, Debug, PartialEq, Eq)]
pub enum Claim {
    /// The new run fails only where the old one does.
    Flag,
    /// The values at an output are related, unless one of the runs fails.
    Output(Relation),
}

/// A claim about each two runs of a pair whose inputs are related so.
#[derive(Drop)]
pub struct Candidate {
    pub when: Items<Relation>,
    pub claim: Claim,
}
