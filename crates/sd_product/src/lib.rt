//! Queries about pairs of procedures, and what they are good for.
#![tactic(auto)]

mod apart;
mod bodies;
mod calls;
mod facts;
pub mod laws;
mod queries;
mod relations;
mod sides;
mod tables;
mod work;

pub use bodies::PairBodies;
pub use queries::query;
pub use work::{Work, WorkError};
