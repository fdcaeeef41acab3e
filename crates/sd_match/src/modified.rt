//! The shared globals that one of two procedures may modify.
ghost use Rattle.std.specs.Prelude.{◌≡◌, ◌<◌, ◌==◌, ◌||◌, ℕ, IfOk, get_or, false, length};
ghost use Rattle.std.specs.List.{AllByRecursion, filter};
ghost use Rattle.sd_match.specs.Pairs.{is_among, modified_globals};

use sd_base::NoMemory;
use sd_core::{CoreProc, Shared};
use std::alloc::Global;

/// Which of so many places are among these.
fn marks_of(alloc: Global, count: usize, places: &[u32]) -> Result<Vec<bool>, NoMemory>
    ensures { IfOk result (λ marks. (i : ℕ) → i < count → get_or marks.items i false ≡ is_among i places.now) }
{
    let mut marks = vec![in alloc; false; count]?;
    'places: for index in 0..places.len() {
        mark(&mut marks, places[index]);
    }
    Ok(marks)
}

fn mark(marks: &mut Vec<bool>, place: u32)
    ensures count { length marks.new.items ≡ length marks.old.items }
    ensures marks { (i : ℕ) → i < length marks.old.items
        → get_or marks.new.items i false ≡ ((i == place) || get_or marks.old.items i false) }
{
    if (place as usize) < marks.len() {
        marks[place as usize] = true;
    }
}

fn is_marked(marks: &[bool], place: u32) -> bool
    ensures { result ≡ get_or marks.now place false }
{
    match marks.get(place as usize) {
        None => false,
        Some(marked) => *marked,
    }
}

/// The shared globals that one of two procedures may modify, where the programs have so many.
pub(crate) fn modified_globals(
    alloc: Global,
    old_count: usize,
    new_count: usize,
    old: &CoreProc,
    new: &CoreProc,
    shared: &[Shared],
) -> Result<Vec<Shared>, NoMemory>
    requires { AllByRecursion (λ s. (s.old < old_count) × (s.new < new_count)) shared.now }
    ensures { IfOk result (λ kept. kept.items ≡ modified_globals old.now new.now shared.now) }
{
    let olds = marks_of(alloc, old_count, old.modifies.as_slice())?;
    let news = marks_of(alloc, new_count, new.modifies.as_slice())?;
    let mut kept = Vec::new(alloc);
    'shared: for place in 0..shared.len() {
        if is_marked(&olds, shared[place].old) || is_marked(&news, shared[place].new) {
            kept.push(shared[place])?;
        }
    }
    Ok(kept)
}
