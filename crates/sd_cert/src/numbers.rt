//! Numbers that are parted by one space.
ghost use Rattle.std.specs.Prelude.{◌≡◌, ◌<◌, ◌^◌, IfOk};
ghost use Rattle.sd_cert.specs.Fields.{IsReadAs, AreSmall, AreNumbers, numbers_text};

use crate::field::{place_of, read_u64};
use sd_base::NoMemory;
use sqlite_items::Items;
use std::alloc::Global;

/// The numbers that a text spells, each less than 2^64.
pub(crate) fn read_numbers(alloc: Global, text: &[u8]) -> Result<Option<Items<u64>>, NoMemory>
    ensures { IfOk result (IsReadAs numbers_text AreNumbers text.now) }
{
    let mut numbers = Items::new(alloc);
    let mut rest = text;
    'numbers: while let Some(at) = place_of(b' ', rest) {
        let Some(number) = read_u64(&rest[..at]) else {
            return Ok(None);
        };
        numbers.push(number)?;
        rest = &rest[at + 1..];
    }
    match read_u64(rest) {
        Some(number) => {
            numbers.push(number)?;
            Ok(Some(numbers))
        }
        None => Ok(None),
    }
}

/// The number, if it is less than 2^32.
pub(crate) fn small(number: u64) -> Option<u32>
    ensures { IsReadAs (λ n. n) (λ n. n < 2 ^ 32) number result }
{
    u32::try_from(number).ok()
}

/// The numbers, if each is less than 2^32.
pub(crate) fn all_small(alloc: Global, numbers: &[u64]) -> Result<Option<Items<u32>>, NoMemory>
    ensures { IfOk result (IsReadAs (λ ns. ns) AreSmall numbers.now) }
{
    let mut all = Items::new(alloc);
    for number in numbers {
        let Some(less) = small(*number) else {
            return Ok(None);
        };
        all.push(less)?;
    }
    Ok(Some(all))
}
