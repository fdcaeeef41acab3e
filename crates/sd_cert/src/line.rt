//! The lines of a certificate.
ghost use Rattle.std.specs.Prelude.{◌≡◌, ◌++◌, IfOk};
ghost use Rattle.std.specs.Option.{option_map};
ghost use Rattle.sd_cert.specs.Fields.{IsReadAs};
ghost use Rattle.sd_cert.specs.Keywords.{front_of};
ghost use Rattle.sd_cert.specs.Lines.{line_text, IsLine, pair_fields, IsPairField};

use crate::field::{before, read_digest, read_u32};
use crate::keyword::{Keyword, keyword_of};
use crate::number_lines::number_line;
use crate::numbers::read_numbers;
use sd_base::NoMemory;
use sd_kernel::{RowLine, Step};
use std::alloc::Global;

/// What a certificate says of a pair: its candidates have queries, or the pair is refused.
#[derive(Clone, Copy, Debug, PartialEq, Eq)]
pub enum CertState {
    Open,
    Refused,
}

/// A line of a certificate.
#[derive(Debug, Drop)]
pub enum Line {
    Version(u64),
    Old([u8; 32]),
    New([u8; 32]),
    Settings([u8; 32]),
    /// How many pairs there are.
    Pairs(u64),
    Pair(u32, CertState),
    /// A live candidate, by its number within the pair.
    Candidate(u32),
    /// A step that is one line.
    Step(Step),
    /// A step of so many rows, which stand on the next lines.
    Rows(u64),
    Row(RowLine),
    End,
}

/// The line that a text without line feeds spells.
pub fn read_line(alloc: Global, text: &[u8]) -> Result<Option<Line>, NoMemory>
    ensures { IfOk result (IsReadAs line_text IsLine text.now) }
{
    if text == b"end".as_slice() {
        return Ok(Some(Line::End));
    }
    match keyword_of(text) {
        Some((keyword, fields)) => read_fields(alloc, keyword, fields),
        None => Ok(None),
    }
}

/// The line that begins with this word and has these fields.
fn read_fields(alloc: Global, keyword: Keyword, fields: &[u8]) -> Result<Option<Line>, NoMemory>
    ensures { IfOk result (IsReadAs line_text IsLine (front_of keyword ++ fields.now)) }
{
    match keyword {
        Keyword::Old => Ok(read_digest(fields).map(Line::Old)),
        Keyword::New => Ok(read_digest(fields).map(Line::New)),
        Keyword::Settings => Ok(read_digest(fields).map(Line::Settings)),
        Keyword::Pair => Ok(pair_line(read_pair(fields))),
        _ => match read_numbers(alloc, fields)? {
            Some(numbers) => number_line(alloc, keyword, numbers.as_slice()),
            None => Ok(None),
        },
    }
}

fn pair_line(pair: Option<(u32, CertState)>) -> Option<Line>
    ensures { result ≡ option_map (λ p. Line.Pair p.0 p.1) pair }
{
    match pair {
        Some((number, state)) => Some(Line::Pair(number, state)),
        None => None,
    }
}

/// The number and the state of a pair.
fn read_pair(fields: &[u8]) -> Option<(u32, CertState)>
    ensures { IsReadAs pair_fields IsPairField fields.now result }
{
    if let Some(number) = before(fields, b" open") {
        return with_state(read_u32(number), CertState::Open);
    }
    if let Some(number) = before(fields, b" refused") {
        return with_state(read_u32(number), CertState::Refused);
    }
    None
}

fn with_state(number: Option<u32>, state: CertState) -> Option<(u32, CertState)>
    ensures { result ≡ option_map (λ n. (n, state)) number }
{
    match number {
        Some(number) => Some((number, state)),
        None => None,
    }
}
