//! Tables by which pairs and candidates are found.
ghost use Rattle.std.specs.Prelude.{◌≡◌, ◌≤◌, ◌<◌, ◌+◌, ◌^◌, ◌++◌, IfOk, OnOk, Some, length, slice_set};
ghost use Rattle.sd_product.specs.Numbering.{AreAscending, FindsPairs, firsts_from, places_from, places_in};

use sd_base::NoMemory;
use sd_cand::Candidate;
use sd_match::Pairs;
use sqlite_items::Items;
use std::alloc::Global;

/// Notes the pair of the old procedure at this place.
fn put_pair(entries: &mut Vec<Option<u32>>, old: u32, pair: u32)
    requires { old < length entries.old.items }
    ensures { entries.new.items ≡ slice_set entries.old.items old (Some pair) }
{
    entries[old as usize] = Some(pair);
}

/// By the place of an old procedure, of which there are so many: its pair.
pub(crate) fn pairs_by_old(
    alloc: Global,
    pairs: &Pairs,
    procs: usize,
) -> Result<Vec<Option<u32>>, NoMemory>
    requires { AreAscending procs pairs.now }
    ensures { IfOk result (λ entries. FindsPairs entries.items pairs.now) }
{
    let mut entries = vec![in alloc; None; procs]?;
    'pairs: for pair in 0..pairs.len() {
        put_pair(&mut entries, pairs.pair(pair).old, pair);
    }
    Ok(entries)
}

/// The number after so many candidates from this one on.
fn number_after(number: u32, count: usize) -> Result<u32, NoMemory>
    ensures { IfOk result (λ after. after ≡ number + count) }
{
    if count > (u32::MAX - number) as usize {
        return Err(NoMemory);
    }
    Ok(number + count as u32)
}

/// The number of the first candidate of each list.
pub(crate) fn first_numbers(alloc: Global, lists: &[Items<Candidate>]) -> Result<Vec<u32>, NoMemory>
    ensures { IfOk result (λ first. first.items ≡ firsts_from 0 lists.now) }
{
    let mut first = Vec::new(alloc);
    let mut number = 0;
    'lists: for place in 0..lists.len() {
        first.push(number)?;
        number = number_after(number, lists[place].len())?;
    }
    Ok(first)
}

/// Adds the places of the candidates of a list.
fn put_places(
    places: &mut Vec<(u32, u32)>,
    list: u32,
    candidates: &Items<Candidate>,
) -> Result<(), NoMemory>
    ensures { OnOk result (places.new.items ≡ places.old.items ++ places_in list 0 candidates.now) }
{
    let count = candidates.len();
    if count > u32::MAX as usize {
        return Err(NoMemory);
    }
    'candidates: for place in 0..count {
        places.push((list, place as u32))?;
    }
    Ok(())
}

/// For each candidate the place of its list, and its own in it.
pub(crate) fn candidate_places(
    alloc: Global,
    lists: &[Items<Candidate>],
) -> Result<Vec<(u32, u32)>, NoMemory>
    ensures places { IfOk result (λ places. places.items ≡ places_from 0 lists.now) }
    ensures few { IfOk result (λ places. length places.items < 2 ^ 32) }
{
    if lists.len() > u32::MAX as usize {
        return Err(NoMemory);
    }
    let mut places = Vec::new(alloc);
    'lists: for list in 0..lists.len() {
        put_places(&mut places, list as u32, &lists[list])?;
    }
    if places.len() > u32::MAX as usize {
        return Err(NoMemory);
    }
    Ok(places)
}
