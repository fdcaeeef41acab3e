//! Rows over integers, each of which says that a sum of columns is at most its bound, and linear forms.
#![tactic(auto)]

mod divisor;
mod form;
mod row;

pub use divisor::{divisor_of, gcd, multipliers, quotient, quotient_down};
pub use form::Form;
pub use row::{MAX_BOUND, MAX_FACTOR, Row};
