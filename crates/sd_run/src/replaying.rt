//! The replay of a certificate of two texts.
ghost use Rattle.std.specs.Prelude.{◌≡◌, ◌≢◌, IfOk, IsErrOf, Err};
ghost use Rattle.sd_base.specs.Causes.{Rose, NoFault};
ghost use Rattle.sd_base.specs.Outside.{AllStay};
ghost use Rattle.sd_run.specs.Replies.{outcome_of, texts_of, refusal, IsJudged, IsMatched, IsReplayReply};

use crate::certificate_error::certificate_error;
use crate::matching::Matched;
use crate::reply::{Reply, Stop, message, report_on};
use crate::verdict::Otherwise;
use sd_base::{Files, NoMemory, ReadFault, read_up_to};
use sd_cert::{CertError, replay};
use std::alloc::Global;

/// The bytes of a certificate that are read at most.
const CERTIFICATE_BYTES: usize = 9223372036854775807;

/// The reply to bytes that are refused as a certificate.
fn refuse<'a>(alloc: Global, fault: CertError) -> Result<Reply<'a>, NoMemory>
    ensures { IfOk result (λ reply. (fault ≢ CertError.NoMemory) × (outcome_of reply ≡ refusal fault)) }
{
    if fault == CertError::NoMemory {
        return Err(NoMemory);
    }
    let line = certificate_error(alloc, fault)?;
    message(alloc, 5, line.as_slice())
}

/// Judges the bytes of a certificate of two texts.
fn judge<'a>(alloc: Global, matched: &Matched, bytes: &[u8]) -> Result<Reply<'a>, NoMemory>
    requires { IsMatched matched.now }
    ensures { IfOk result (λ reply. IsJudged bytes.now (texts_of matched.now.old matched.now.new) (outcome_of reply)) }
{
    let replayed = match replay(alloc, &matched.work, &matched.digests(), bytes) {
        Ok(replayed) => replayed,
        Err(fault) => return refuse(alloc, fault),
    };
    let report = report_on(alloc, matched, &replayed.table, Otherwise::Unproved)?;
    Ok(Reply {
        status: report.status,
        text: report.text,
        pairs: report.pairs,
        table: report.table,
        deaths: Vec::new(alloc),
        certificate: None,
    })
}

/// Reads a certificate and judges it.
pub fn replay_file<'a, F: Files>(
    alloc: Global,
    files: &mut F,
    matched: &Matched,
    name: &str,
) -> Result<Reply<'a>, Stop>
    requires { IsMatched matched.now }
    ensures reply { IfOk result (λ reply. IsReplayReply (F.content files.old name.now)
        (texts_of matched.now.old matched.now.new) (outcome_of reply)) }
    ensures cause { IsErrOf result Stop.Failed → Rose (F.read_faults files.old name.now)
        (F.read_faults files.new name.now) }
    ensures stay { AllStay F.content files.old files.new }
    ensures no_fault { result ≢ Err Stop.Failed
        → NoFault F.read_faults F.start_faults F.append_faults files.old files.new }
{
    let bytes = match read_up_to(alloc, files, name, CERTIFICATE_BYTES) {
        Ok(bytes) => bytes,
        Err(ReadFault::Failed) => return Err(Stop::Failed),
        Err(ReadFault::Memory) => return Err(Stop::Memory),
    };
    if bytes.len() > CERTIFICATE_BYTES {
        return Ok(message(alloc, 9, b"error: certificate size\n")?);
    }
    Ok(judge(alloc, matched, bytes.as_slice())?)
}
