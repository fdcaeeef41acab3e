//! The job that the words name.
ghost use Rattle.std.specs.Prelude.{◌≡◌, ◌≤◌, map, option_map, IfOk, IfSome, string_bytes};
ghost use Rattle.clap.specs.Words.{first_of, rows_of, found_of};
ghost use Rattle.std.specs.Int.{IsInRange};
ghost use Rattle.std.specs.Option.{option_copied};
ghost use Rattle.sd_words.specs.Words.{verify_job, replay_job, job_by, job_of, number_or, is_another_file};
ghost use Rattle.std.specs.Prelude.{option_and_then};
ghost use Rattle.sd_words.specs.Commands.{verify_command, replay_command, rows_of_words};
ghost use Rattle.sd_words.specs.Jobs.{names_of, IsInLimits};

use crate::command::{matches_in, replay_command, verify_command};
use crate::number::number_to;
use clap::ArgMatches;
use sd_base::NoMemory;
use std::alloc::Global;

/// What is to be done with two texts.
#[derive(Clone, Copy, Debug)]
pub enum Task<'a> {
    /// They are compared.
    Verify {
        /// How many threads work, from 1 to 64. It has no effect yet.
        workers: u32,
        /// How many branches a search closes at most, from 1 to 20000.
        leaves: u32,
        /// The name of the file that the certificate is written to, if one is asked for.
        certificate: Option<&'a str>,
    },
    /// The certificate of this name is replayed.
    Replay(&'a str),
}

/// What the words ask for: the names of the two files, and what is done with their texts.
#[derive(Clone, Copy, Debug)]
pub struct Job<'a> {
    pub old: &'a str,
    pub new: &'a str,
    pub task: Task<'a>,
}

/// The number that an option gives, from 1 to `most`; where the option is absent, another one.
fn number_or(absent: u32, most: u32, word: Option<&str>) -> Option<u32>
    ensures number { result ≡ number_or absent most (option_copied word.entry) }
    ensures range { 1 ≤ absent → absent ≤ most → IfSome result (IsInRange 1 most) }
{
    match word {
        None => Some(absent),
        Some(word) => number_to(most, word),
    }
}

fn is_another_file(certificate: Option<&str>, old: &str, new: &str) -> bool
    ensures { result ≡ is_another_file (option_copied certificate.entry) old.now new.now }
{
    match certificate {
        None => true,
        Some(file) => file != old && file != new,
    }
}

/// The text that was matched as this argument.
fn text_of<'a>(matches: &ArgMatches<'a>, name: &str) -> Option<&'a str>
    ensures { option_copied result ≡ first_of name.now (rows_of (found_of matches.now)) }
{
    matches.get_str(name)
}

fn verify_job<'a>(matches: &ArgMatches<'a>) -> Option<Job<'a>>
    ensures job { option_map names_of result ≡ verify_job (rows_of (found_of matches.now)) }
    ensures range { IfSome result (λ job. IsInLimits job.task) }
{
    let old = text_of(matches, "OLD")?;
    let new = text_of(matches, "NEW")?;
    let workers = number_or(1, 64, text_of(matches, "workers"))?;
    let leaves = number_or(2000, 20000, text_of(matches, "leaves"))?;
    let certificate = text_of(matches, "certificate");
    if !is_another_file(certificate, old, new) {
        return None;
    }
    let task = Task::Verify {
        workers,
        leaves,
        certificate,
    };
    Some(Job { old, new, task })
}

fn replay_job<'a>(matches: &ArgMatches<'a>) -> Option<Job<'a>>
    ensures job { option_map names_of result ≡ replay_job (rows_of (found_of matches.now)) }
    ensures range { IfSome result (λ job. IsInLimits job.task) }
{
    let old = text_of(matches, "OLD")?;
    let new = text_of(matches, "NEW")?;
    let task = Task::Replay(text_of(matches, "CERTIFICATE")?);
    Some(Job { old, new, task })
}

fn verify_words<'a>(alloc: Global, words: &'a [String]) -> Result<Option<Job<'a>>, NoMemory>
    ensures job { IfOk result (λ found. option_map names_of found
        ≡ option_and_then verify_job (rows_of_words verify_command (map string_bytes words.now))) }
    ensures range { IfOk result (λ found. IfSome found (λ job. IsInLimits job.task)) }
{
    match matches_in(verify_command(alloc)?, words)? {
        Some(matches) => Ok(verify_job(&matches)),
        None => Ok(None),
    }
}

fn replay_words<'a>(alloc: Global, words: &'a [String]) -> Result<Option<Job<'a>>, NoMemory>
    ensures job { IfOk result (λ found. option_map names_of found
        ≡ option_and_then replay_job (rows_of_words replay_command (map string_bytes words.now))) }
    ensures range { IfOk result (λ found. IfSome found (λ job. IsInLimits job.task)) }
{
    match matches_in(replay_command(alloc)?, words)? {
        Some(matches) => Ok(replay_job(&matches)),
        None => Ok(None),
    }
}

/// The job of words of which this is the first.
fn job_by<'a>(
    alloc: Global,
    command: &str,
    words: &'a [String],
) -> Result<Option<Job<'a>>, NoMemory>
    ensures job { IfOk result (λ found. option_map names_of found ≡ job_by command.now (map string_bytes words.now)) }
    ensures range { IfOk result (λ found. IfSome found (λ job. IsInLimits job.task)) }
{
    if command == "verify" {
        return verify_words(alloc, words);
    }
    if command == "replay" {
        return replay_words(alloc, words);
    }
    Ok(None)
}

/// The job that the words name, if they name one.
pub fn job_named(alloc: Global, words: &[String]) -> Result<Option<Job<'_>>, NoMemory>
    ensures job { IfOk result (λ found. option_map names_of found ≡ job_of (map string_bytes words.now)) }
    ensures range { IfOk result (λ found. IfSome found (λ job. IsInLimits job.task)) }
{
    match words {
        [] => Ok(None),
        [command, ..] => job_by(alloc, command.as_str(), words),
    }
}
