ghost use Rattle.std.specs.Prelude.{◌≡◌, IfOk};

use crate::NoMemory;
use sqlite_items::Items;
use std::alloc::Global;

/// A value that can be copied where there is memory.
pub trait CloneOf: Drop {
    /// An equal value.
    fn clone_of(&self, alloc: Global) -> Result<Self, NoMemory>
        ensures { IfOk result (λ copy. copy ≡ self.now) };
}

/// A list of copies.
pub fn clone_items<T: CloneOf>(alloc: Global, items: &Items<T>) -> Result<Items<T>, NoMemory>
    ensures { IfOk result (λ copies. copies ≡ items.now) }
{
    let mut copies = Items::new(alloc);
    for item in items.as_slice() {
        copies.push(item.clone_of(alloc)?)?;
    }
    Ok(copies)
}
