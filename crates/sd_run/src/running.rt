ghost use Rattle.std.specs.Prelude.{◌≡◌, ◌≢◌, ◌⊎◌, ◌↔◌, [], ◌∷◌, ℕ, List, Option, Contains, IsTrue, map, string_bytes};
ghost use Rattle.sd_base.specs.Causes.{Rose, NoFault};
ghost use Rattle.sd_base.specs.Outside.{AllStay, appended};
ghost use Rattle.sd_run.specs.Replies.{named, outcome_of};
ghost use Rattle.sd_run.specs.Answer.{Answer, Headline, UnknownIsFailure, ReadRose, CertificateWriteRose};
ghost use Rattle.sd_run.specs.Writing.{outcome, certificate_size, whole, IsBroken, FilesAfter, IsCutShort, FileRose, SaysNothing};

use crate::answering::reply_to;
use crate::reply::{NamedCertificate, Reply, Stop};
use crate::verdict::PairVerdict;
use sd_base::{Files, Gate, Sink, WriteFault, write_all, write_file};
use sd_rounds::Death;
use std::alloc::Global;
use std::thread::Threads;

/// The exit status of the program.
#[derive(Clone, Copy, Debug, PartialEq, Eq)]
pub struct Status {
    pub code: u8,
}

/// What became of the file of a certificate.
#[derive(Clone, Copy, Debug, PartialEq, Eq)]
pub enum CertificateFile {
    /// No certificate was to be written.
    Untouched,
    /// It couldn't be emptied.
    NotStarted,
    /// It holds a part of the certificate, from its front.
    Cut,
    /// It holds the certificate.
    Whole,
}

/// How a run ended: its status, and with the statuses 0 and 1, and with 7 while a report or its certificate was
/// written, what is said of the pairs.
#[derive(Drop)]
pub struct Ended {
    pub status: Status,
    /// The verdict of each pair, in the order of the old text.
    pub pairs: Vec<PairVerdict>,
    /// The live candidates: candidate `c` is bit `c % 64` of word `c / 64`.
    pub table: Vec<u64>,
    /// The candidates that were dropped, in order, each with its cause.
    pub deaths: Vec<Death>,
    /// The length of the certificate that was to be written, or 0.
    pub certificate_length: u64,
    pub certificate_file: CertificateFile,
}

/// Whether the certificate couldn't be written whole.
fn is_broken(file: CertificateFile) -> bool
    ensures { IsTrue result ↔ IsBroken file }
{
    matches!(file, CertificateFile::NotStarted | CertificateFile::Cut)
}

/// Writes a certificate to its file, if there is one, and answers what became of the file.
fn write_certificate<F: Files>(
    files: &mut F,
    certificate: &Option<NamedCertificate<'_>>,
) -> CertificateFile
    ensures whole { (IsBroken result → ⊥) → result ≡ whole (named certificate.now) }
    ensures files { FilesAfter F.content files.old files.new (named certificate.now) result }
    ensures not_started { result ≡ CertificateFile.NotStarted
        → FileRose (named certificate.now) (F.start_faults files.old) (F.start_faults files.new) }
    ensures cut { result ≡ CertificateFile.Cut
        → FileRose (named certificate.now) (F.append_faults files.old) (F.append_faults files.new) }
    ensures no_fault { (IsBroken result → ⊥)
        → NoFault F.read_faults F.start_faults F.append_faults files.old files.new }
{
    let Some(file) = certificate else {
        return CertificateFile::Untouched;
    };
    match write_file(files, file.name, file.text.as_slice()) {
        Ok(()) => CertificateFile::Whole,
        Err(WriteFault::Start) => CertificateFile::NotStarted,
        Err(WriteFault::Append) => CertificateFile::Cut,
    }
}

/// How a run ends that says nothing of pairs.
fn stopped(alloc: Global, code: u8) -> Ended
    ensures status { result.status.code ≡ code }
    ensures none { SaysNothing result }
{
    Ended {
        status: Status { code },
        pairs: Vec::new(alloc),
        table: Vec::new(alloc),
        deaths: Vec::new(alloc),
        certificate_length: 0,
        certificate_file: CertificateFile::Untouched,
    }
}

fn length_of(certificate: &Option<NamedCertificate<'_>>) -> u64
    ensures { result ≡ certificate_size (named certificate.now) }
{
    match certificate {
        Some(file) => file.text.len() as u64,
        None => 0,
    }
}

/// How a run ends that came to this reply.
fn end_with(reply: Reply<'_>, code: u8, certificate_file: CertificateFile) -> Ended
    ensures status { result.status.code ≡ code }
    ensures file { result.certificate_file ≡ certificate_file }
    ensures length { result.certificate_length ≡ certificate_size (named reply.entry.certificate) }
    ensures outcome { outcome reply.entry.status reply.entry.text.items
        (named reply.entry.certificate) result ≡ outcome_of reply.entry }
{
    Ended {
        status: Status { code },
        certificate_length: length_of(&reply.certificate),
        certificate_file,
        pairs: reply.pairs,
        table: reply.table,
        deaths: reply.deaths,
    }
}

/// Does what the words ask for, and answers the status with what it found.
///
/// `verify OLD NEW` reads two program texts and writes the report on their pairs of procedures (after Lahiri and
/// others 2013: differential assertion checking); with `--certificate FILE` it writes before that the certificate of
/// the report to a file, and with `--leaves N` each search closes at most so many branches. `replay OLD NEW
/// CERTIFICATE` writes the report from a certificate that it checks. The statuses: 0 every pair is safe; 1 some pair
/// isn't; 2 the words name no job; 3 a text is no program that this version takes; 4 the two texts declare a name with
/// two types; 5 the certificate is refused; 6 the reading of a file failed; 7 the writing failed; 8 memory ran out; 9 a
/// text or the certificate passes a limit.
pub fn run<R: Threads + Sync, F: Files, S: Sink, G: Gate>(
    _rt: &R,
    alloc: Global,
    words: &[String],
    files: &mut F,
    out: &mut S,
    _gate: &G,
) -> Ended
    ensures known { Contains (0 ∷ 1 ∷ 2 ∷ 3 ∷ 4 ∷ 5 ∷ 6 ∷ 7 ∷ 8 ∷ 9 ∷ []) result.status.code }

    // Each other status than 6, 7 and 8 is a row of the table of answers, and its certificate and its text were written
    // whole.
    ensures answer { result.status.code ≢ 6 → result.status.code ≢ 7 → result.status.code ≢ 8
        → (text : List ℕ) × (certificate : Option (List ℕ × List ℕ))
        × Answer (map string_bytes words.now) (F.content files.old) (outcome result.status.code text certificate result)
        × (result.certificate_length ≡ certificate_size certificate)
        × (result.certificate_file ≡ whole certificate)
        × FilesAfter F.content files.old files.new certificate result.certificate_file
        × (S.written out.new ≡ appended (S.written out.old) text) }

    // With 7 the writing of such a row was cut short. The text is begun only where the certificate is whole.
    ensures cut_short { result.status.code ≡ 7
        → (code : ℕ) × (text : List ℕ) × (certificate : Option (List ℕ × List ℕ))
        × Answer (map string_bytes words.now) (F.content files.old) (outcome code text certificate result)
        × (result.certificate_length ≡ certificate_size certificate)
        × FilesAfter F.content files.old files.new certificate result.certificate_file
        × IsCutShort certificate result.certificate_file text (S.written out.old) (S.written out.new) }

    // With 6 and 8 nothing was written, and nothing is said of pairs.
    ensures silent { (result.status.code ≡ 6) ⊎ (result.status.code ≡ 8) → SaysNothing result
        × AllStay F.content files.old files.new × (S.written out.new ≡ S.written out.old) }

    // The faults have their causes, and where no call failed none was counted. A file is read only where those before
    // it are accepted.
    ensures read_fault { result.status.code ≡ 6 → ReadRose (map string_bytes words.now) (F.content files.old)
        (F.read_faults files.old) (F.read_faults files.new) }
    ensures write_fault { result.status.code ≡ 7
        → (result.certificate_file ≡ CertificateFile.NotStarted
        → CertificateWriteRose (map string_bytes words.now) (F.content files.old)
        (F.start_faults files.old) (F.start_faults files.new))
        × (result.certificate_file ≡ CertificateFile.Cut
        → CertificateWriteRose (map string_bytes words.now) (F.content files.old)
        (F.append_faults files.old) (F.append_faults files.new))
        × ((IsBroken result.certificate_file → ⊥) → Rose (S.faults out.old) (S.faults out.new)) }
    ensures first_fault { result.status.code ≢ 6 → (IsBroken result.certificate_file → ⊥)
        → NoFault F.read_faults F.start_faults F.append_faults files.old files.new }
    ensures first_write_fault { result.status.code ≢ 7 ⊎ IsBroken result.certificate_file
        → S.faults out.new ≡ S.faults out.old }

    // Where a pair is said to be safe, no meaning and no equal input let the old procedure end while the new one fails.
    ensures headline { Headline (map string_bytes words.now) (F.content files.old) result.pairs.items }

    // Where a pair is said to be unknown, no search for a candidate of it was spent, and the texts are over truth
    // values without calls and loops, such an input is there.
    ensures unknown { UnknownIsFailure (map string_bytes words.now)
        (F.content files.old) result.deaths.items result.pairs.items }
{
    let reply = match reply_to(alloc, words, files) {
        Ok(reply) => reply,
        Err(Stop::Failed) => return stopped(alloc, 6),
        Err(Stop::Memory) => return stopped(alloc, 8),
    };
    let file = write_certificate(files, &reply.certificate);
    if is_broken(file) {
        return end_with(reply, 7, file);
    }
    match write_all(out, reply.text.as_slice()) {
        Ok(()) => {
            let code = reply.status;
            end_with(reply, code, file)
        }
        Err(_) => end_with(reply, 7, file),
    }
}
