//! The reader: from the bytes of a text to its tree. The grammar is after Boogie 2 (Leino 2008).
#![tactic(auto)]

mod answer;
mod assignment;
mod attribute;
mod class;
mod clause;
mod count;
mod cursor;
mod expression;
mod function;
pub mod laws;
mod level;
mod loops;
mod names;
mod procedure;
mod program;
mod statement;
mod types;
mod values;
mod variables;

pub use answer::{ReadError, read_program};
