//! The text of a certificate as lines.
ghost use Rattle.std.specs.Prelude.{◌≡◌, ◌++◌, ◌∷◌, IfOk, MatchOption};
ghost use Rattle.sd_cert.specs.Lines.{line_text, IsLine};
ghost use Rattle.sd_cert.specs.Text.{BeginsWithoutLine, HasLines};

use crate::field::place_of;
use crate::line::{Line, read_line};
use sd_base::NoMemory;
use sqlite_items::Items;
use std::alloc::Global;

/// The first line of a text, and what follows it.
fn first_line(alloc: Global, text: &[u8]) -> Result<Option<(Line, &[u8])>, NoMemory>
    ensures { IfOk result (λ first. MatchOption first (BeginsWithoutLine text.now)
        (λ r. IsLine r.0 × (text.now ≡ line_text r.0 ++ 10 ∷ r.1.now))) }
{
    let Some(end) = place_of(b'\n', text) else {
        return Ok(None);
    };
    match read_line(alloc, &text[..end])? {
        Some(line) => Ok(Some((line, &text[end + 1..]))),
        None => Ok(None),
    }
}

/// The lines in front of a text, up to the first that has no form, and what is left from there on.
pub(crate) fn read_lines(alloc: Global, text: &[u8]) -> Result<(Items<Line>, &[u8]), NoMemory>
    ensures { IfOk result (λ r. HasLines text.now r.0 r.1.now) }
{
    let mut lines = Items::new(alloc);
    let mut rest = text;
    'lines: while let Some((line, after)) = first_line(alloc, rest)? {
        lines.push(line)?;
        rest = after;
    }
    Ok((lines, rest))
}
