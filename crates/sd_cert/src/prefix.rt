//! The prefix of a certificate: its lines as far as they were read.
ghost use Rattle.std.specs.Prelude.{◌≡◌, None, length};

use crate::certificate::{CertPair, Certificate};
use crate::digest::Digests;
use crate::line::CertState;
use sd_kernel::{Proved, RowLine, Step};
use sqlite_items::Items;

/// A live candidate with the steps that were read so far.
#[derive(Drop)]
pub(crate) struct PartialProof {
    pub candidate: u32,
    pub steps: Items<Step>,
}

/// A pair with its live candidates that were read so far.
#[derive(Drop)]
pub(crate) struct PartialPair {
    pub state: CertState,
    pub proved: Items<Proved>,
    pub proof: Option<PartialProof>,
}

/// What stands below the line that tells how many pairs there are.
#[derive(Drop)]
pub(crate) struct Body {
    pub digests: Digests,
    pub count: u64,
    pub pairs: Items<CertPair>,
    /// The pair that is being read.
    pub last: Option<PartialPair>,
    ghost first: { last ≡ None → length pairs ≡ 0 },
}

/// A rows step of the last proof, as far as its rows were read.
#[derive(Drop)]
pub(crate) struct PartialRows {
    pub digests: Digests,
    pub count: u64,
    pub pairs: Items<CertPair>,
    /// What there is of the last pair.
    pub state: CertState,
    pub proved: Items<Proved>,
    pub proof: PartialProof,
    pub rows: Items<RowLine>,
    /// How many rows come after the next one.
    pub later: u64,
}

/// The first lines of a certificate, which were read.
#[derive(Drop)]
pub(crate) enum Prefix {
    Empty,
    WithVersion,
    WithOld([u8; 32]),
    WithNew([u8; 32], [u8; 32]),
    WithDigests(Digests),
    Body(Body),
    Rows(PartialRows),
    Complete(Certificate),
}
