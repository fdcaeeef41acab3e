//! Source programs as core programs: loops become procedures that call themselves, contracts become checks, and a
//! failed assertion becomes a flag.
#![tactic(auto)]

mod assignment;
mod build;
mod call;
mod callees;
mod clause;
mod counts;
mod declarations;
mod expression;
mod extraction;
mod frame;
mod frames;
mod hidden;
pub mod laws;
mod loops;
mod modified;
mod naming;
mod numbering;
mod procedure;
mod program;
mod routine;
mod routines;
mod scope;
mod source;
mod statement;
mod table;

pub use extraction::extract;
