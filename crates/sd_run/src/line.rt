//! The parts of a line.
ghost use Rattle.std.specs.Prelude.{◌≡◌, ◌++◌, OnOk, decimal};

use sd_base::NoMemory;
use std::alloc::Global;

/// Adds words to a line.
pub fn push(line: &mut Vec<u8>, words: &[u8]) -> Result<(), NoMemory>
    ensures { OnOk result (line.new.items ≡ line.old.items ++ words.now) }
{
    line.extend_from_slice(words)?;
    Ok(())
}

/// Adds words and a number to a line.
pub fn push_number(
    alloc: Global,
    line: &mut Vec<u8>,
    words: &[u8],
    number: u64,
) -> Result<(), NoMemory>
    ensures { OnOk result (line.new.items ≡ line.old.items ++ (words.now ++ decimal number)) }
{
    push(line, words)?;
    let digits = number.to_string(alloc)?;
    push(line, digits.as_bytes())
}
