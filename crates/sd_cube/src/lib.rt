//! Open cubes and spent searches: what a search for a proof answers where it finds none.
#![tactic(auto)]

pub mod laws;
