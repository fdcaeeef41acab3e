//! Checks proofs that no valuation makes all facts of a query true.
#![tactic(auto)]

mod branch;
mod chain;
mod choice;
mod effect;
mod known;
mod nodes;
mod order;
mod proved;
mod rows;
mod step;
mod term;
mod walk;

pub use known::{Fact, is_truth_part, known_values};
pub use nodes::{find_pair, is_op};
pub use proved::{How, Proved};
pub use step::{BadLine, NodeLine, Proof, RowLine, Step, StepCause, Verdict};
pub use term::is_int;
pub use walk::{Walk, proves};
