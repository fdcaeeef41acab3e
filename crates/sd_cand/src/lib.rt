//! Candidates for facts about pairs of runs, and which of them are live.
#![tactic(auto)]

mod candidate;
mod generate;
mod live;

pub use candidate::{Candidate, Claim, Relation};
pub use generate::{CandError, candidates, candidates_of};
pub use live::LiveTable;
