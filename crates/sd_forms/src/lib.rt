//! Linear forms of integer terms, and the rows that facts about them give.
#![tactic(auto)]

mod forms;
mod laws;
mod rows;

pub use forms::{forms_of, linear_form};
pub use laws::{forms_keep_values, rows_hold};
pub use rows::{above_row, back_row, below_row, is_int_eq, is_le, rows_of};
