//! The line that says why a text isn't accepted.
ghost use Rattle.std.specs.Prelude.{◌≡◌, ◌++◌, IfOk, OnOk};
ghost use Rattle.sd_run.specs.TextRefusals as spec;

use crate::line::{push, push_number};
use crate::text::TextRefusal;
use sd_base::{Name, NoMemory, Place};
use sd_lex::LexError;
use sd_parse::ReadError;
use sd_types::TypeError;
use std::alloc::Global;

fn push_placed(alloc: Global, line: &mut Vec<u8>, words: &[u8], at: Place) -> Result<(), NoMemory>
    ensures { OnOk result (line.new.items ≡ line.old.items ++ spec.placed words.now at) }
{
    push(line, words)?;
    push_number(alloc, line, b" at ", at.byte)
}

fn push_naming(line: &mut Vec<u8>, words: &[u8], name: &Name) -> Result<(), NoMemory>
    ensures { OnOk result (line.new.items ≡ line.old.items ++ spec.naming words.now name.now) }
{
    push(line, words)?;
    push(line, name.as_bytes())
}

fn push_unsupported(
    alloc: Global,
    line: &mut Vec<u8>,
    at: Place,
    word: &Name,
) -> Result<(), NoMemory>
    ensures { OnOk result (line.new.items ≡ line.old.items ++ spec.unsupported at word.now) }
{
    push(line, b"unsupported ")?;
    push(line, word.as_bytes())?;
    push_number(alloc, line, b" at ", at.byte)?;
    Ok(())
}

fn push_lex_error(alloc: Global, line: &mut Vec<u8>, error: &LexError) -> Result<(), NoMemory>
    ensures { OnOk result (line.new.items ≡ line.old.items ++ spec.lex_text error.now) }
{
    match error {
        LexError::NoMemory => Ok(()),
        LexError::Wide(at) => push_placed(alloc, line, b"wide literal", *at),
        LexError::Unsupported(at, word) => push_unsupported(alloc, line, *at, word),
        LexError::BadByte(at) => push_placed(alloc, line, b"bad byte", *at),
        LexError::OpenComment(at) => push_placed(alloc, line, b"open comment", *at),
        LexError::OpenString(at) => push_placed(alloc, line, b"open string", *at),
    }
}

fn push_read_error(alloc: Global, line: &mut Vec<u8>, error: &ReadError) -> Result<(), NoMemory>
    ensures { OnOk result (line.new.items ≡ line.old.items ++ spec.read_text error.now) }
{
    match error {
        ReadError::NoMemory => Ok(()),
        ReadError::TooLong => push(line, b"size"),
        ReadError::Lex(error) => push_lex_error(alloc, line, error),
        ReadError::Star(at) => push_placed(alloc, line, b"unsupported *", *at),
        ReadError::Syntax(at) => push_placed(alloc, line, b"syntax", *at),
        ReadError::Deep(at) => push_placed(alloc, line, b"nesting", *at),
        ReadError::TooMany => push(line, b"procedures"),
    }
}

fn push_type_error(alloc: Global, line: &mut Vec<u8>, error: &TypeError) -> Result<(), NoMemory>
    ensures { OnOk result (line.new.items ≡ line.old.items ++ spec.type_text error.now) }
{
    match error {
        TypeError::NoMemory => Ok(()),
        TypeError::Unknown(name) => push_naming(line, b"unknown ", name),
        TypeError::Twice(name) => push_naming(line, b"twice ", name),
        TypeError::Kind(at) => push_placed(alloc, line, b"kind", *at),
        TypeError::Arity(at) => push_placed(alloc, line, b"arity", *at),
        TypeError::ReadOnly(name) => push_naming(line, b"read only ", name),
        TypeError::NotModified(name) => push_naming(line, b"not modified ", name),
        TypeError::NoBody(name) => push_naming(line, b"no body ", name),
        TypeError::NoLoop(at) => push_placed(alloc, line, b"no loop", *at),
    }
}

fn push_refusal(alloc: Global, line: &mut Vec<u8>, refusal: &TextRefusal) -> Result<(), NoMemory>
    ensures { OnOk result (line.new.items ≡ line.old.items ++ spec.refusal_text refusal.now) }
{
    match refusal {
        TextRefusal::Reading(error) => push_read_error(alloc, line, error),
        TextRefusal::Typing(error) => push_type_error(alloc, line, error),
        TextRefusal::NotYet => push(line, b"not yet"),
    }
}

/// The line on the text that this word names, `old` or `new`.
pub fn text_error(alloc: Global, word: &[u8], refusal: &TextRefusal) -> Result<Vec<u8>, NoMemory>
    ensures { IfOk result (λ line. line.items ≡ spec.text_error word.now refusal.now) }
{
    let mut line = Vec::new(alloc);
    push(&mut line, b"error: ")?;
    push(&mut line, word)?;
    push(&mut line, b" ")?;
    push_refusal(alloc, &mut line, refusal)?;
    push(&mut line, b"\n")?;
    Ok(line)
}

/// 9 where a limit is passed, else 3.
pub fn refusal_status(refusal: &TextRefusal) -> u8
    ensures { result ≡ spec.refusal_status refusal.now }
{
    match refusal {
        TextRefusal::Reading(error) => match error {
            ReadError::TooLong => 9,
            ReadError::Deep(_) => 9,
            ReadError::TooMany => 9,
            _ => 3,
        },
        _ => 3,
    }
}
