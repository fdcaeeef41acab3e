//! Two texts that can be compared.
ghost use Rattle.std.specs.Prelude.{◌≡◌, IfOk, IfErr};
ghost use Rattle.sd_match.specs.Refusals.{Answers};
ghost use Rattle.sd_run.specs.TextRefusals.{IsAccepted};
ghost use Rattle.sd_run.specs.Texts.{clash_of, digests_of};
ghost use Rattle.sd_run.specs.Replies.{texts_of, IsMatched};

use crate::text::Text;
use sd_cert::{Digests, digests_of};
use sd_config::Settings;
use sd_extract::extract;
use sd_extract::laws::extracted_is_formed;
use sd_match::MatchError;
use sd_product::{Work, WorkError};
use std::alloc::Global;

/// Two texts that can be compared, and what they give to judge.
#[derive(Drop)]
pub struct Matched {
    pub old: Text,
    pub new: Text,
    pub work: Work,
}

/// Pairs the procedures of two texts.
pub fn match_texts(alloc: Global, old: Text, new: Text) -> Result<Matched, MatchError>
    requires old_accepted { IsAccepted old.bytes.items old.program }
    requires new_accepted { IsAccepted new.bytes.items new.program }
    ensures matched { IfOk result IsMatched }
    ensures texts { IfOk result (λ matched. texts_of matched.old matched.new ≡ texts_of old new) }
    ensures clash { IfErr result (λ e. Answers e (clash_of (texts_of old new))) }
{
    extracted_is_formed();
    let old_core = extract(alloc, &old.program)?;
    let new_core = extract(alloc, &new.program)?;
    let work = match Work::new(alloc, old_core, new_core, &Settings::none()) {
        Ok(work) => work,
        Err(WorkError::Match(refused)) => return Err(refused),
        Err(WorkError::NoMemory) => return Err(MatchError::NoMemory),
    };
    Ok(Matched { old, new, work })
}

impl Matched {
    /// The digests of the two texts, and of absent settings.
    pub fn digests(&self) -> Digests
        ensures { result ≡ digests_of (texts_of self.now.old self.now.new) }
    {
        digests_of(self.old.bytes.as_slice(), self.new.bytes.as_slice(), b"")
    }
}
