//! Bodies of core procedures as terms.
#![tactic(auto)]

mod axioms;
mod body;
mod call;
mod expression;
pub mod laws;
mod spots;

pub use axioms::put_axioms;
pub use body::{BodyTerms, body_of};
pub use call::{Context, Site};
