//! What the runs of core programs keep, and which procedures never fail.
#![tactic(auto)]

mod calls;
mod infallible;
pub mod laws;

pub use calls::{any_fail, callees_of};
pub use infallible::infallible_procedures;
