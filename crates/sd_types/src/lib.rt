//! The rules on names and types: which programs are well typed.
#![tactic(auto)]

mod assigned;
mod declaration;
mod declare;
pub mod laws;
mod phrase;
mod refusal;
mod scope;
mod statement;
mod table;
mod typed;

pub use refusal::TypeError;
pub use typed::{Typed, check};
