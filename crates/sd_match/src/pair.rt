//! Pairs of procedures.

use sd_base::{Name, Sort};
use sd_core::Spot;
use sqlite_items::Items;

/// A place in the state of an old procedure and the one in the state of its partner that it is compared with.
#[derive(Drop)]
pub struct SpotPair {
    pub old: Spot,
    pub new: Spot,
    pub sort: Sort,
}

/// Whether a pair can be judged.
#[derive(Drop)]
pub enum PairState {
    Open,
    /// The types of the parameters differ.
    Signature,
    /// One of the two, or a loop in one of them, calls this procedure, which has no partner.
    UnmatchedRecursion(Name),
}

/// An old and a new procedure, or a loop in one and a loop in the other, by their places in the programs.
#[derive(Drop)]
pub struct Pair {
    pub old: u32,
    pub new: u32,
    pub state: PairState,
    /// In-parameters by position, a loop's locals and copies of globals by name, and then the shared globals.
    pub inputs: Items<SpotPair>,
    /// Out-parameters by position, a loop's locals by name, whether a loop left its procedure, and then the shared
    /// globals that one of the two may modify.
    pub outputs: Items<SpotPair>,
}
