ghost use Rattle.std.specs.Prelude.{◌≡◌};

use sd_base::Name;

/// What is said of a pair of procedures.
#[derive(Debug, Drop, PartialEq, Eq)]
pub enum VerdictState {
    /// No equal input lets the old procedure end while the new one fails.
    Safe,
    /// No claim on the flags of the pair was proved.
    Unknown,
    /// The certificate has no claim on the flags of the pair.
    Unproved,
    /// The types of the parameters differ.
    Signature,
    /// One of the two, or a loop in one of them, calls this procedure, which has no partner.
    UnmatchedRecursion(Name),
}

impl VerdictState {
    ghost use Rattle.sd_run.specs.Report.{is_safe, is_unknown, is_refused};

    /// Whether the pair is safe.
    pub fn is_safe(&self) -> bool
        ensures { result ≡ is_safe self.now }
    {
        match self {
            VerdictState::Safe => true,
            _ => false,
        }
    }

    /// Whether no claim on the flags of the pair was shown.
    pub fn is_unknown(&self) -> bool
        ensures { result ≡ is_unknown self.now }
    {
        match self {
            VerdictState::Unknown => true,
            VerdictState::Unproved => true,
            _ => false,
        }
    }

    /// Whether the pair is refused.
    pub fn is_refused(&self) -> bool
        ensures { result ≡ is_refused self.now }
    {
        match self {
            VerdictState::Signature => true,
            VerdictState::UnmatchedRecursion(_) => true,
            _ => false,
        }
    }
}

/// What is said of a pair that could be judged and of which no claim on the flags is live.
#[derive(Clone, Copy, Debug, PartialEq, Eq)]
pub enum Otherwise {
    Unknown,
    Unproved,
}

/// The verdict of a pair of procedures, with their names in the old and in the new text.
#[derive(Debug, Drop)]
pub struct PairVerdict {
    pub old: Name,
    pub new: Name,
    pub state: VerdictState,
    /// Whether the outputs are said to be equal. They never are yet, whatever was proved of them.
    pub equal: bool,
}
