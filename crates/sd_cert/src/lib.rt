//! Certificates: the table of live candidates and their proofs, as a text that anyone can check.
#![tactic(auto)]

mod certificate;
mod copying;
mod counting;
mod digest;
mod extend;
mod fault;
mod field;
mod header;
mod judge;
mod keyword;
pub mod laws;
mod line;
mod number_lines;
mod numbers;
mod prefix;
mod reading;
mod refusal;
mod replaying;
mod spelling;
mod table;
mod text;
mod writing;

pub use certificate::{CertPair, Certificate};
pub use digest::{Digests, digests_of};
pub use fault::CertError;
pub use header::{PairHeader, headers_of};
pub use line::{CertState, Line, read_line};
pub use reading::read_certificate;
pub use replaying::{Replayed, replay};
pub use spelling::spell_certificate;
pub use writing::write_certificate;
