ghost use Rattle.std.specs.Prelude.{◌≡◌, ℕ, ◌<◌, IfOk, length, true};
ghost use Rattle.sd_term.specs.Bank.{tree_at};
ghost use Rattle.sd_term.specs.Sorts.{AllWellSorted};
ghost use Rattle.sd_kernel.specs.Known.{Trail};
ghost use Rattle.sd_euf.specs.Closed.{AreClasses};
ghost use Rattle.sd_euf.specs.Judged.{HasValues};
ghost use Rattle.sd_euf.specs.Links.{class_at, moved};

use crate::links::sides_of;
use sd_base::NoMemory;
use sd_term::{Bank, TermId};
use sqlite_items::Items;
use std::alloc::Global;

/// The number of each term.
fn own_numbers(alloc: Global, terms: &Bank) -> Result<Items<u32>, NoMemory>
    ensures long { IfOk result (λ classes. length classes ≡ length terms.now) }
    ensures own { IfOk result (λ classes. (k : ℕ) → k < length terms.now → class_at classes k ≡ k) }
{
    let mut classes = Items::new(alloc);
    for i in 0..terms.len() as usize {
        classes.push(i as u32)?;
    }
    Ok(classes)
}

/// Moves one class to another.
fn merge(classes: &mut Items<u32>, from: u32, to: u32)
    ensures long { length classes.new ≡ length classes.old }
    ensures moved { (k : ℕ) → k < length classes.old → class_at classes.new k ≡ moved from to (class_at classes.old k) }
{
    for i in 0..classes.len() {
        let class = classes.as_slice()[i];
        if class == from {
            classes.set(i, to);
        }
    }
}

/// A number for each term, one for all that true equalities join.
pub fn classes_of(
    alloc: Global,
    terms: &Bank,
    values: &[Option<bool>],
) -> Result<Items<u32>, NoMemory>
    requires sorted { AllWellSorted terms.now }
    requires long { length values.now ≡ length terms.now }
    ensures long { IfOk result (λ classes. length classes ≡ length terms.now) }
    ensures classes { IfOk result (λ classes. (trail : Trail) → HasValues terms.now trail values.now
        → AreClasses terms.now trail classes) }
{
    let mut classes = own_numbers(alloc, terms)?;
    for i in 0..terms.len() as usize {
        let Some(sides) = sides_of(terms, values, TermId::new(i as u32), true) else {
            continue;
        };
        let left = classes.as_slice()[sides.left.number() as usize];
        let right = classes.as_slice()[sides.right.number() as usize];
        merge(&mut classes, right, left);
    }
    Ok(classes)
}
