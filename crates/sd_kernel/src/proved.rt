use crate::step::Proof;

/// What a live candidate stands on.
#[derive(Debug, Drop)]
pub enum How {
    /// A proof that no valuation makes all facts of its query true.
    Steps(Proof),
}

/// A live candidate, by its number, with what it stands on.
#[derive(Debug, Drop)]
pub struct Proved {
    pub candidate: u32,
    pub how: How,
}
