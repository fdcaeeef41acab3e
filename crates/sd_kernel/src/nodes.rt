ghost use Rattle.std.specs.Prelude.{◌≡◌, ◌<◌, nat_lt, All, IfOk, IfSome, IfNone, IsTrue, ◌↔◌, [], ◌∷◌, length, map};
ghost use Rattle.std.specs.Prelude.{slice_index_or, false};
ghost use Rattle.std.specs.List.{list_all};
ghost use Rattle.sd_term.specs.Tree.{same_tree, parts_of, head_of};
ghost use Rattle.sd_term.specs.Bank.{tree_at};
ghost use Rattle.sd_term.specs.Numbering.{has};
ghost use Rattle.sd_forms.specs.FactRows.{part_at, is_eq_head};
ghost use Rattle.sd_kernel.specs.Steps.{is_ite_head};
ghost use Rattle.sd_kernel.specs.Effects.{pair_of};

use sd_base::NoMemory;
use sd_term::{Bank, Head, Op, TermId, TermNode};
use sqlite_items::Items;
use std::alloc::Global;

/// Whether all numbers are numbers of terms.
pub fn are_numbers(terms: &Bank, numbers: &[u32]) -> bool
    ensures { result ≡ list_all (λ n. nat_lt n (length terms.now)) numbers.now }
{
    let count = terms.len();
    numbers.iter().all(|number| *number < count)
}

/// Whether a head is this operation.
pub fn is_op(head: &Head, op: Op) -> bool
    ensures { IsTrue result ↔ (head.now ≡ Head.Op op) }
{
    match head {
        Head::Op(own) => *own == op,
        _ => false,
    }
}

/// Whether these are two terms equal to the given ones.
fn are_parts(terms: &Bank, parts: &[TermId], first: TermId, second: TermId) -> bool
    requires parts { All (λ p. p < length terms.now) parts.now }
    requires first { first < length terms.now }
    requires second { second < length terms.now }
    ensures { IsTrue result
        ↔ (map (λ p. tree_at terms.now p) parts.now ≡ tree_at terms.now first ∷ tree_at terms.now second ∷ []) }
{
    if parts.len() != 2 {
        return false;
    }
    if !terms.same_term(parts[0], first) {
        return false;
    }
    terms.same_term(parts[1], second)
}

/// Whether a term is the operation of two terms.
pub fn is_node_of(terms: &Bank, id: TermId, op: Op, first: TermId, second: TermId) -> bool
    requires id { id < length terms.now }
    requires first { first < length terms.now }
    requires second { second < length terms.now }
    ensures { result ≡ same_tree (tree_at terms.now id) (pair_of terms.now op first second) }
{
    let node = terms.node(id);
    if !is_op(&node.head, op) {
        return false;
    }
    are_parts(terms, node.parts.as_slice(), first, second)
}

/// The node of an operation of two terms.
pub fn pair_node(alloc: Global, op: Op, first: TermId, second: TermId) -> Result<TermNode, NoMemory>
    ensures head { IfOk result (λ node. node.head ≡ Head.Op op) }
    ensures parts { IfOk result (λ node. node.parts ≡ first ∷ second ∷ []) }
{
    let parts = Items::from_slice(alloc, &[first, second])?;
    let head = Head::Op(op);
    Ok(TermNode { head, parts })
}

/// The number of an operation of two terms, where it has one.
pub fn find_pair(
    alloc: Global,
    terms: &Bank,
    op: Op,
    first: TermId,
    second: TermId,
) -> Result<Option<TermId>, NoMemory>
    requires first { first < length terms.now }
    requires second { second < length terms.now }
    ensures below { IfOk result (λ r. IfSome r (λ id. id < length terms.now)) }
    ensures tree { IfOk result (λ r. IfSome r (λ id. tree_at terms.now id ≡ pair_of terms.now op first second)) }
    ensures none { IfOk result (λ r. IfNone r (has terms.now (pair_of terms.now op first second) ≡ false)) }
{
    let node = pair_node(alloc, op, first, second)?;
    let found = terms.find(&node);
    Ok(found)
}

/// A part of a term.
pub fn part(terms: &Bank, id: TermId, place: usize) -> TermId
    requires id { id < length terms.now }
    requires place { place < length (parts_of (tree_at terms.now id)) }
    ensures below { result < length terms.now }
    ensures tree { tree_at terms.now result ≡ part_at (tree_at terms.now id) place }
{
    part_at(terms.node(id).parts.as_slice(), place)
}

fn part_at(parts: &[TermId], place: usize) -> TermId
    requires { place < length parts.now }
    ensures { result ≡ slice_index_or parts.now place result }
{
    parts[place]
}

/// Whether a term is an equality.
pub fn is_eq(terms: &Bank, id: TermId) -> bool
    requires { id < length terms.now }
    ensures { result ≡ is_eq_head (head_of (tree_at terms.now id)) }
{
    is_op(&terms.node(id).head, Op::Eq)
}

/// Whether a term is a choice.
pub fn is_ite(terms: &Bank, id: TermId) -> bool
    requires { id < length terms.now }
    ensures { result ≡ is_ite_head (head_of (tree_at terms.now id)) }
{
    is_op(&terms.node(id).head, Op::Ite)
}
