//! The reply where two texts clash.
ghost use Rattle.std.specs.Prelude.{◌≡◌, ◌++◌, IfOk, codes};
ghost use Rattle.sd_run.specs.Outcome as outcome;
ghost use Rattle.sd_run.specs.Report.{line_end};
ghost use Rattle.sd_run.specs.Replies.{outcome_of, IsClashReply};

use crate::line::push;
use crate::reply::{Reply, message};
use sd_base::{Name, NoMemory};
use sd_match::MatchError;
use std::alloc::Global;

/// The reply that names what both texts declare, with these words before.
fn name_clash<'a>(alloc: Global, words: &[u8], name: &Name) -> Result<Reply<'a>, NoMemory>
    ensures { IfOk result (λ reply. outcome_of reply ≡ outcome.message 4 (codes "error: match "
        ++ (words.now ++ name.now) ++ line_end)) }
{
    let mut line = Vec::new(alloc);
    push(&mut line, b"error: match ")?;
    push(&mut line, words)?;
    push(&mut line, name.as_bytes())?;
    push(&mut line, b"\n")?;
    message(alloc, 4, line.as_slice())
}

/// The reply to two texts that clash.
pub fn refuse_clash<'a>(alloc: Global, clash: &MatchError) -> Result<Reply<'a>, NoMemory>
    ensures { IfOk result (λ reply. IsClashReply clash.now (outcome_of reply)) }
{
    match clash {
        MatchError::NoMemory => Err(NoMemory),
        MatchError::GlobalTypes(name) => name_clash(alloc, b"globals ", name),
        MatchError::FunctionSignatures(name) => name_clash(alloc, b"functions ", name),
    }
}
