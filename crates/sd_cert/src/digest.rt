ghost use Rattle.std.specs.Prelude.{◌≡◌};
ghost use Rattle.sha2.specs.Sha256.{sha256};

use sha2::{Digest, Sha256};

/// The SHA-256 values (FIPS 180-4) of the old text, the new text and the settings. Absent settings are no bytes.
#[derive(Clone, Copy, Debug, PartialEq, Eq)]
pub struct Digests {
    pub old: [u8; 32],
    pub new: [u8; 32],
    pub settings: [u8; 32],
}

/// The digests of two texts and their settings.
pub fn digests_of(old: &[u8], new: &[u8], settings: &[u8]) -> Digests
    ensures { result ≡ record { old = sha256 old.now; new = sha256 new.now; settings = sha256 settings.now } }
{
    Digests {
        old: Sha256::digest(old),
        new: Sha256::digest(new),
        settings: Sha256::digest(settings),
    }
}
