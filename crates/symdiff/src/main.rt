//! The program: `run` on the words of the command line, the file system and the standard output.
#![tactic(auto)]

ghost use Rattle.std.specs.Prelude.{◌≡◌, ◌≢◌, ◌⊎◌, [], ◌∷◌, Err, Contains, map, string_bytes};
ghost use Rattle.sd_base.specs.Causes.{NoFault};
ghost use Rattle.sd_base.specs.Outside.{AllStay};
ghost use Rattle.sd_run.specs.Answer.{ReadRose};
ghost use Rattle.symdiff.specs.Exit.{words_read, IsAnswered, IsBegun, WriteRose};

mod real;

use real::{RealFiles, RealSink};
use sd_base::{Files, OpenGate, Sink};
use sd_run::run;
use std::alloc::Global;
use std::process::ExitCode;
use std::rt::Env;
use std::thread::Threads;
use std::{env, io};

/// Why there are no words.
#[derive(Clone, Copy, Debug, PartialEq, Eq)]
enum NoWords {
    /// A word isn't text.
    NotText,
    Memory,
}

/// Why the words couldn't be collected.
fn why(error: &io::Error) -> NoWords {
    match error.kind() {
        io::ErrorKind::InvalidData => NoWords::NotText,
        _ => NoWords::Memory,
    }
}

fn collect<R: Env + Alloc<A = Global>>(rt: &R) -> io::Result<Vec<String>> {
    let mut words = Vec::new(rt.alloc());
    for word in env::args(rt)?.skip(1) {
        words.push(word)?;
    }
    Ok(words)
}

/// The words after the program's name.
fn words_of<R: Env + Alloc<A = Global>>(rt: &R) -> Result<Vec<String>, NoWords> {
    match collect(rt) {
        Ok(words) => Ok(words),
        Err(error) => Err(why(&error)),
    }
}

/// The exit status of a run on these words.
fn status_with<R: Threads + Sync, F: Files, S: Sink>(
    rt: &R,
    alloc: Global,
    words: &[String],
    files: &mut F,
    out: &mut S,
) -> u8
    ensures known { Contains (0 ∷ 1 ∷ 2 ∷ 3 ∷ 4 ∷ 5 ∷ 6 ∷ 7 ∷ 8 ∷ 9 ∷ []) result }

    // Each other status than 6, 7 and 8 is that of a row of the table of answers, which was written whole.
    ensures answer { result ≢ 6 → result ≢ 7 → result ≢ 8
        → IsAnswered (map string_bytes words.now) result F.content files.old files.new
        (S.written out.old) (S.written out.new) }

    // With 7 the writing of such a row was cut short.
    ensures cut_short { result ≡ 7 → IsBegun (map string_bytes words.now) F.content files.old files.new
        (S.written out.old) (S.written out.new) }

    // With 6 and 8 nothing was written.
    ensures silent { (result ≡ 6) ⊎ (result ≡ 8) → AllStay F.content files.old files.new
        × (S.written out.new ≡ S.written out.old) }

    // The faults have their causes, and another status than 6 and 7 comes without one.
    ensures read_fault { result ≡ 6 → ReadRose (map string_bytes words.now) (F.content files.old)
        (F.read_faults files.old) (F.read_faults files.new) }
    ensures write_fault { result ≡ 7 → WriteRose (map string_bytes words.now) F.content F.start_faults F.append_faults
        files.old files.new (S.faults out.old) (S.faults out.new) }
    ensures no_fault { result ≢ 6 → result ≢ 7
        → NoFault F.read_faults F.start_faults F.append_faults files.old files.new
        × (S.faults out.new ≡ S.faults out.old) }
{
    let ended = run(rt, alloc, words, files, out, &OpenGate);
    ended.status.code
}

/// The exit status of a run on the words that were collected. A word that isn't text makes a command line that names no
/// job.
fn status_of<R: Threads + Sync, F: Files, S: Sink>(
    rt: &R,
    alloc: Global,
    words: Result<Vec<String>, NoWords>,
    files: &mut F,
    out: &mut S,
) -> u8
    ensures known { Contains (0 ∷ 1 ∷ 2 ∷ 3 ∷ 4 ∷ 5 ∷ 6 ∷ 7 ∷ 8 ∷ 9 ∷ []) result }

    // Each other status than 6, 7 and 8 is that of a row of the table of answers, which was written whole.
    ensures answer { result ≢ 6 → result ≢ 7 → result ≢ 8
        → IsAnswered (words_read words) result F.content files.old files.new
        (S.written out.old) (S.written out.new) }

    // With 7 the writing of such a row was cut short.
    ensures cut_short { result ≡ 7 → IsBegun (words_read words) F.content files.old files.new
        (S.written out.old) (S.written out.new) }

    // With 6 and 8 nothing was written.
    ensures silent { (result ≡ 6) ⊎ (result ≡ 8) → AllStay F.content files.old files.new
        × (S.written out.new ≡ S.written out.old) }

    // The faults have their causes, and another status than 6 and 7 comes without one.
    ensures read_fault { result ≡ 6 → ReadRose (words_read words) (F.content files.old)
        (F.read_faults files.old) (F.read_faults files.new) }
    ensures write_fault { result ≡ 7 → WriteRose (words_read words) F.content F.start_faults F.append_faults
        files.old files.new (S.faults out.old) (S.faults out.new) }
    ensures no_fault { result ≢ 6 → result ≢ 7
        → NoFault F.read_faults F.start_faults F.append_faults files.old files.new
        × (S.faults out.new ≡ S.faults out.old) }

    // Without memory for the words it is 8.
    ensures memory { words ≡ Err NoWords.Memory → (result ≡ 8) × (S.written out.new ≡ S.written out.old) }
{
    match words {
        Ok(words) => status_with(rt, alloc, words.as_slice(), files, out),
        Err(NoWords::NotText) => status_with(rt, alloc, &[], files, out),
        Err(NoWords::Memory) => 8,
    }
}

fn main(rt: HostRuntime) -> ExitCode {
    let words = words_of(&rt);
    let mut files = RealFiles::new(&rt);
    let mut out = RealSink {
        inner: io::writer(&rt),
        faults: 0,
    };
    ExitCode::from(status_of(&rt, rt.alloc(), words, &mut files, &mut out))
}
