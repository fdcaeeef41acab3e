//! Guesses a proof that no valuation makes all facts of a query true. Nothing is promised of a guess: the kernel
//! judges it.
//!
//! The search keeps one trail of facts, each with the facts that it rests on, and writes the proof backwards from a
//! conflict with what was used alone (Marques-Silva and Sakallah 1999). Equalities of integers are solved as they
//! come, bounds are kept by their left sides (Nelson and Oppen 1979), and terms of the two bodies that look alike are
//! proved equal first, inner ones before outer ones (Kuehlmann and Krohm 1997).
#![tactic(auto)]

mod access;
mod bounds;
mod choice;
mod classes;
mod cuts;
mod eliminate;
mod facts;
mod implied;
mod levels;
mod lists;
mod normal;
mod propagate;
mod reasons;
mod rows;
mod search;
mod solved;
mod state;
mod stop;
mod terms;
mod trail;
mod values;
mod writer;

pub use search::{Finding, guess};
pub use values::Values;
