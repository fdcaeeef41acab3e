//! The words of the command line: which job they name.
#![tactic(auto)]

mod command;
mod job;
pub mod laws;
mod number;

pub use job::{Job, Task, job_named};
