//! Closes equalities: chains of equalities, the equalities of choices, and the orders of false equalities.
#![tactic(auto)]

mod chains;
mod choices;
mod classes;
mod closing;
mod find;
mod judged;
mod links;
mod orders;
mod table;

pub use closing::{Closed, close};
