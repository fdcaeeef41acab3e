//! Whether integers can meet rows, each of which says that a sum of columns is at most a bound.
//!
//! The columns are eliminated one after the other: two rows in which a column has factors of opposite signs are added
//! with multipliers, so that it falls away (Fourier-Motzkin elimination; Dantzig and Eaves 1973). Each row is divided
//! by the greatest common divisor of its factors, and its bound rounded down, which loses no integers (Gomory 1958;
//! Chvátal 1973). A row with no factor and a bound below 0 refutes the rows. Otherwise the columns get values, from the
//! last to the first. A value that is there for real numbers and not for integers is answered as a gap, and decides
//! nothing.
#![tactic(auto)]

mod columns;
mod combine;
mod elimination;
pub mod laws;
mod list;
mod refutation;
mod step;
mod value;

pub use elimination::{Eliminated, eliminate};
pub use step::RowStep;
