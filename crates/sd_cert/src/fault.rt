ghost use Rattle.std.specs.Prelude.{◌≡◌};
ghost use Rattle.sd_cert.specs.declared.fault.CertError.TheVariants.{NoMemory as Memory};

use sd_base::NoMemory;
use sd_kernel::StepCause;

/// Why bytes are not accepted as a certificate. Lines count from 1.
#[derive(Clone, Copy, Debug, PartialEq, Eq)]
pub enum CertError {
    NoMemory,
    /// The number in a first line that is one of another version.
    Version(u64),
    /// The first line that has no form or can't stand where it stands.
    Line(u64),
    OtherOld,
    OtherNew,
    OtherSettings,
    Pair(u32),
    /// The first bad line of the steps, and why it is bad.
    Step(u64, StepCause),
}

impl From<NoMemory> for CertError {
    ghost from_gives = { λ _ e. e ≡ Memory };

    fn from(_e: NoMemory) -> CertError {
        CertError::NoMemory
    }
}
