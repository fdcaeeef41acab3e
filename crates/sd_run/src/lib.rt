//! The relative verifier: its report, and the top call.
#![tactic(auto)]

mod answering;
mod certificate_error;
mod compared;
mod comparing;
mod judge;
pub mod laws;
mod line;
mod match_error;
mod matching;
mod replaying;
mod reply;
mod report;
mod running;
mod text;
mod text_error;
mod verdict;

pub use running::{CertificateFile, Ended, Status, run};
pub use verdict::{PairVerdict, VerdictState};
