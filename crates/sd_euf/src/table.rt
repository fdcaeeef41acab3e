ghost use Rattle.std.specs.Prelude.{◌≡◌, ℕ, ◌<◌, ◌+◌, IfOk, IfSome, IfNone, OnOk, length};
ghost use Rattle.sd_term.specs.Tree.{Tree};
ghost use Rattle.sd_term.specs.Bank.{tree_at};
ghost use Rattle.sd_term.specs.Distinct.{AreDistinct};
ghost use Rattle.sd_euf.specs.Table.{HasLeft, IsLeftTable};

use sd_base::NoMemory;
use sd_term::{Bank, TermId};
use sqlite_items::Items;
use std::alloc::Global;

/// The terms over two parts by their left part.
#[derive(Drop)]
pub struct LeftTable {
    /// For each term, the last one that has it as its left part.
    pub last: Items<Option<u32>>,
    /// For each term, the last one before it that has the same left part.
    pub earlier: Items<Option<u32>>,
}

/// The left part of a term over two.
fn left_of(terms: &Bank, id: TermId) -> Option<TermId>
    requires { id < length terms.now }
    ensures below { IfSome result (λ left. left < length terms.now) }
    ensures some { IfSome result (λ left. HasLeft (tree_at terms.now id) (tree_at terms.now left)) }
    ensures none { IfNone result ((x : Tree) → HasLeft (tree_at terms.now id) x → ⊥) }
{
    let node = terms.node(id);
    let parts = node.parts.as_slice();
    if parts.len() != 2 {
        return None;
    }
    Some(parts[0])
}

impl LeftTable {
    /// The table of no terms, with room for this many.
    fn new(alloc: Global, terms: &Bank) -> Result<LeftTable, NoMemory>
        ensures { IfOk result (λ table. IsLeftTable terms.now table 0) }
    {
        let last = vec![in alloc; None; terms.len() as usize]?;
        Ok(LeftTable {
            last: Items::from_vec(last),
            earlier: Items::new(alloc),
        })
    }

    /// Takes in the next term.
    fn add(&mut self, terms: &Bank, id: TermId) -> Result<(), NoMemory>
        requires id { id < length terms.now }
        requires distinct { AreDistinct terms.now }
        requires table { IsLeftTable terms.now self.old id }
        ensures { OnOk result (IsLeftTable terms.now self.new (id + 1)) }
    {
        let Some(left) = left_of(terms, id) else {
            self.earlier.push(None)?;
            return Ok(());
        };
        let first = left.number() as usize;
        let last = self.last.as_slice()[first];
        self.earlier.push(last)?;
        self.last.set(first, Some(id.number()));
        Ok(())
    }
}

/// The table of all terms.
pub fn left_table(alloc: Global, terms: &Bank) -> Result<LeftTable, NoMemory>
    ensures { IfOk result (λ table. IsLeftTable terms.now table (length terms.now)) }
{
    let mut table = LeftTable::new(alloc, terms)?;
    for i in 0..terms.len() as usize {
        table.add(terms, TermId::new(i as u32))?;
    }
    Ok(table)
}
