//! Which procedures, loops and globals of two programs belong together.
#![tactic(auto)]

pub mod laws;
mod modified;
mod pair;
mod pairs;
mod partners;
mod procedures;
mod refusal;
mod shared;
mod spots;
mod state;
mod tables;
mod unmatched;

pub use pair::{Pair, PairState, SpotPair};
pub use pairs::{Pairs, pair_up};
pub use procedures::Procedures;
pub use refusal::MatchError;
pub use shared::shared_globals;
