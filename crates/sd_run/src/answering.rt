//! The reply to the words of a command line.
ghost use Rattle.std.specs.Prelude.{◌≡◌, ◌≢◌, ◌↔◌, IfOk, IsErrOf, Err, None, map, string_bytes};
ghost use Rattle.sd_base.specs.Causes.{NoFault};
ghost use Rattle.sd_base.specs.Outside.{AllStay};
ghost use Rattle.sd_run.specs.Answer.{Answer, CertificateRose, ReadRose};
ghost use Rattle.sd_words.specs.Jobs.{task_of, IsInLimits};
ghost use Rattle.sd_run.specs.TextRefusals.{IsAccepted};
ghost use Rattle.sd_run.specs.Texts.{clash_of};
ghost use Rattle.sd_run.specs.Replies.{outcome_of, texts_of, IsMatched, IsTextReply, IsTaskReply, IsTextsReply};

use crate::comparing::compare;
use crate::match_error::refuse_clash;
use crate::matching::{Matched, match_texts};
use crate::replaying::replay_file;
use crate::reply::{Reply, Stop, message};
use crate::text::{Text, TextFault, read_text};
use crate::text_error::{refusal_status, text_error};
use sd_base::Files;
use sd_words::{Task, job_named};
use std::alloc::Global;

const USAGE: &str =
    "usage: symdiff verify OLD NEW [--settings FILE] [--workers N] [--leaves N] [--certificate FILE]\n       symdiff replay OLD NEW CERTIFICATE [--settings FILE]\n       symdiff gen N [--workers N] [--leaves N]\n";

/// The reply where the text that this word names isn't there.
fn refuse<'a>(alloc: Global, word: &[u8], fault: TextFault) -> Result<Reply<'a>, Stop>
    ensures reply { IfOk result (λ reply. IsTextReply word.now fault (outcome_of reply)) }
    ensures failed { (result ≡ Err Stop.Failed) ↔ (fault ≡ TextFault.Failed) }
{
    match fault {
        TextFault::Refused(refusal) => {
            let line = text_error(alloc, word, &refusal)?;
            let status = refusal_status(&refusal);
            Ok(message(alloc, status, line.as_slice())?)
        }
        TextFault::Failed => Err(Stop::Failed),
        TextFault::Memory => Err(Stop::Memory),
    }
}

/// The reply to a task on two texts that can be compared.
fn judge_texts<'a, F: Files>(
    alloc: Global,
    files: &mut F,
    task: Task<'a>,
    matched: &Matched,
) -> Result<Reply<'a>, Stop>
    requires matched { IsMatched matched.now }
    requires limits { IsInLimits task }
    ensures reply { IfOk result (λ reply. IsTaskReply (task_of task.entry) (F.content files.old)
        (texts_of matched.now.old matched.now.new) (outcome_of reply)) }
    ensures cause { IsErrOf result Stop.Failed → CertificateRose (task_of task.entry) (F.read_faults files.old)
        (F.read_faults files.new) }
    ensures stay { AllStay F.content files.old files.new }
    ensures no_fault { result ≢ Err Stop.Failed
        → NoFault F.read_faults F.start_faults F.append_faults files.old files.new }
{
    match task {
        Task::Verify {
            workers: _,
            leaves,
            certificate,
        } => Ok(compare(alloc, matched, leaves, certificate)?),
        Task::Replay(name) => replay_file(alloc, files, matched, name),
    }
}

/// The reply to a task on two texts.
fn reply_on<'a, F: Files>(
    alloc: Global,
    files: &mut F,
    task: Task<'a>,
    old: Text,
    new: Text,
) -> Result<Reply<'a>, Stop>
    requires limits { IsInLimits task }
    requires old_accepted { IsAccepted old.bytes.items old.program }
    requires new_accepted { IsAccepted new.bytes.items new.program }
    ensures reply { IfOk result (λ reply. IsTextsReply (task_of task.entry) (F.content files.old) (texts_of old new)
        (outcome_of reply)) }
    ensures cause { IsErrOf result Stop.Failed → (clash_of (texts_of old new) ≡ None)
        × CertificateRose (task_of task.entry) (F.read_faults files.old) (F.read_faults files.new) }
    ensures stay { AllStay F.content files.old files.new }
    ensures no_fault { result ≢ Err Stop.Failed
        → NoFault F.read_faults F.start_faults F.append_faults files.old files.new }
{
    match match_texts(alloc, old, new) {
        Ok(matched) => judge_texts(alloc, files, task, &matched),
        Err(clash) => Ok(refuse_clash(alloc, &clash)?),
    }
}

/// The reply to the words.
pub fn reply_to<'a, F: Files>(
    alloc: Global,
    words: &'a [String],
    files: &mut F,
) -> Result<Reply<'a>, Stop>
    ensures answer { IfOk result (λ reply. Answer (map string_bytes words.now) (F.content files.old)
        (outcome_of reply)) }
    ensures read_fault { IsErrOf result Stop.Failed → ReadRose (map string_bytes words.now) (F.content files.old)
        (F.read_faults files.old) (F.read_faults files.new) }
    ensures first_fault { result ≢ Err Stop.Failed
        → NoFault F.read_faults F.start_faults F.append_faults files.old files.new }
    ensures stay { AllStay F.content files.old files.new }
{
    let found = job_named(alloc, words)?;
    let Some(job) = found else {
        return Ok(message(alloc, 2, USAGE.as_bytes())?);
    };
    let old = match read_text(alloc, files, job.old) {
        Ok(old) => old,
        Err(fault) => return refuse(alloc, b"old", fault),
    };
    let new = match read_text(alloc, files, job.new) {
        Ok(new) => new,
        Err(fault) => return refuse(alloc, b"new", fault),
    };
    reply_on(alloc, files, job.task, old, new)
}
