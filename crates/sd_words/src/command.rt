//! The simple commands of clap that the jobs are.
ghost use Rattle.std.specs.Prelude.{◌≡◌, true, false, map, IfOk, IfErr, string_bytes, option_map};
ghost use Rattle.clap.specs.Words.{rule_of, app_of, rows_of, found_of, is_simple_and_free};
ghost use Rattle.sd_words.specs.Commands.{positional, option, command_on_texts, verify_command, replay_command};
ghost use Rattle.sd_words.specs.Commands.{rows_of_words};

use clap::error::ErrorKind;
use clap::{Arg, ArgAction, ArgMatches, Command, Error};
use sd_base::NoMemory;
use std::alloc::{AllocError, Global};

/// An argument that is to stand in its place.
fn positional<'a>(alloc: Global, name: &'a str) -> Arg<'a>
    ensures rule { rule_of result ≡ positional name.entry.now }
    ensures local { result.global ≡ false }
{
    Arg::new(alloc, name).required(true).action(ArgAction::Set)
}

/// An argument that may stand after its name.
fn option<'a>(alloc: Global, name: &'a str) -> Arg<'a>
    ensures rule { rule_of result ≡ option name.entry.now }
    ensures local { result.global ≡ false }
{
    Arg::new(alloc, name).long(name).action(ArgAction::Set)
}

/// The command of this name, with the two texts as its first arguments.
fn command_on_texts<'a>(alloc: Global, name: &'a str) -> Result<Command<'a>, AllocError>
    ensures { IfOk result (λ command. app_of command ≡ command_on_texts name.entry.now) }
{
    Command::new(alloc, name)
        .arg(positional(alloc, "OLD"))?
        .arg(positional(alloc, "NEW"))
}

/// `verify OLD NEW [--workers N] [--leaves N] [--certificate FILE]`
pub(crate) fn verify_command<'a>(alloc: Global) -> Result<Command<'a>, AllocError>
    ensures { IfOk result (λ command. app_of command ≡ verify_command) }
{
    command_on_texts(alloc, "verify")?
        .arg(option(alloc, "workers"))?
        .arg(option(alloc, "leaves"))?
        .arg(option(alloc, "certificate"))
}

/// `replay OLD NEW CERTIFICATE`
pub(crate) fn replay_command<'a>(alloc: Global) -> Result<Command<'a>, AllocError>
    ensures { IfOk result (λ command. app_of command ≡ replay_command) }
{
    command_on_texts(alloc, "replay")?.arg(positional(alloc, "CERTIFICATE"))
}

/// The matches of a simple command on the words, of which the first is its name; none where they are faulty.
pub(crate) fn matches_in<'a>(
    command: Command<'a>,
    words: &'a [String],
) -> Result<Option<ArgMatches<'a>>, NoMemory>
    ensures { is_simple_and_free (app_of command.entry) ≡ true → IfOk result (λ found.
        option_map (λ m. rows_of (found_of m)) found
        ≡ rows_of_words (app_of command.entry) (map string_bytes words.now)) }
{
    match command.try_get_matches_from(words) {
        Ok(matches) => Ok(Some(matches)),
        Err(error) => match error.kind() {
            ErrorKind::OutOfMemory => Err(NoMemory),
            _ => Ok(None),
        },
    }
}
