//! The core language: what the programs of both versions are turned into. It has procedures, calls and branches, and
//! neither loops nor contracts. A failed assertion raises a flag.
#![tactic(auto)]

mod same;
mod tree;

pub use same::same_body;
pub use tree::{CoreExpr, CoreOp, CoreProc, CoreProgram, CoreStmt, Function, Shared, Spot};
