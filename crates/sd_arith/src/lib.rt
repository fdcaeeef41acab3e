//! Closes branches by linear arithmetic.
#![tactic(auto)]

mod gather;
mod lines;
mod places;
mod rows;

pub use rows::refuting_rows;
