ghost use Rattle.std.specs.Prelude.{◌≡◌, ◌≢◌, ◌<◌, IfSome, IfNone, IsTrue, ◌↔◌, length, false};
ghost use Rattle.sd_term.specs.Tree.{Tree};
ghost use Rattle.sd_term.specs.Bank.{tree_at};
ghost use Rattle.sd_term.specs.Numbering.{has};
ghost use Rattle.sd_euf.specs.Judged.{pair_tree, IsPair, Stands};
ghost use Rattle.sd_euf.specs.Table.{IsLeftTable};

use crate::table::LeftTable;
use sd_kernel::is_op;
use sd_term::{Bank, Op, TermId};

/// The two parts of a term.
#[derive(Clone, Copy, Debug)]
pub struct Pair {
    pub left: TermId,
    pub right: TermId,
}

/// How a term that a rule speaks of stands.
#[derive(Clone, Copy, Debug)]
pub enum Standing {
    /// It has no number.
    Absent,
    /// It has no value.
    Unknown(u32),
    Known(u32, bool),
}

/// The parts of a term with this operator over two of them.
pub fn pair_of(terms: &Bank, op: Op, id: TermId) -> Option<Pair>
    requires { id < length terms.now }
    ensures some { IfSome result (λ p. IsPair terms.now op (tree_at terms.now id) p) }
    ensures none { IfNone result ((x y : Tree) → tree_at terms.now id ≢ pair_tree op x y) }
{
    let node = terms.node(id);
    if !is_op(&node.head, op) {
        return None;
    }
    let parts = node.parts.as_slice();
    if parts.len() != 2 {
        return None;
    }
    Some(Pair {
        left: parts[0],
        right: parts[1],
    })
}

/// Whether a term is the operator over these two.
fn is_pair(terms: &Bank, op: Op, id: TermId, left: TermId, right: TermId) -> bool
    requires id { id < length terms.now }
    requires left { left < length terms.now }
    requires right { right < length terms.now }
    ensures { IsTrue result ↔ (tree_at terms.now id ≡ pair_tree op (tree_at terms.now left) (tree_at terms.now right)) }
{
    match pair_of(terms, op, id) {
        Some(pair) => terms.same_term(pair.left, left) && terms.same_term(pair.right, right),
        None => false,
    }
}

/// The number of the operator over two terms, where it has one.
pub fn find(terms: &Bank, table: &LeftTable, op: Op, left: TermId, right: TermId) -> Option<TermId>
    requires table { IsLeftTable terms.now table.now (length terms.now) }
    requires left { left < length terms.now }
    requires right { right < length terms.now }
    ensures some { IfSome result (λ n. (n < length terms.now)
        × (tree_at terms.now n ≡ pair_tree op (tree_at terms.now left) (tree_at terms.now right))) }
    ensures none { IfNone result (has terms.now (pair_tree op (tree_at terms.now left) (tree_at terms.now right))
        ≡ false) }
{
    let first = left.number() as usize;
    let mut place = table.last.as_slice()[first];
    'places: while let Some(number) = place {
        let id = TermId::new(number);
        if is_pair(terms, op, id, left, right) {
            return Some(id);
        }
        place = table.earlier.as_slice()[number as usize];
    }
    None
}

/// How the operator over two terms stands.
pub fn standing_of(
    terms: &Bank,
    table: &LeftTable,
    values: &[Option<bool>],
    op: Op,
    left: TermId,
    right: TermId,
) -> Standing
    requires table { IsLeftTable terms.now table.now (length terms.now) }
    requires left { left < length terms.now }
    requires right { right < length terms.now }
    requires long { length values.now ≡ length terms.now }
    ensures { Stands terms.now values.now (pair_tree op (tree_at terms.now left) (tree_at terms.now right)) result }
{
    let Some(id) = find(terms, table, op, left, right) else {
        return Standing::Absent;
    };
    match values[id.number() as usize] {
        Some(value) => Standing::Known(id.number(), value),
        None => Standing::Unknown(id.number()),
    }
}
