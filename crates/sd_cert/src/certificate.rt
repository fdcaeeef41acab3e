use crate::digest::Digests;
use crate::line::CertState;
use sd_kernel::Proved;
use sqlite_items::Items;

/// The digests of the texts and the settings, and what stays of each pair, in order.
#[derive(Debug, Drop)]
pub struct Certificate {
    pub digests: Digests,
    pub pairs: Items<CertPair>,
}

/// A pair with its live candidates, each with its number within the pair and what it stands on.
#[derive(Debug, Drop)]
pub struct CertPair {
    pub state: CertState,
    pub proved: Items<Proved>,
}
