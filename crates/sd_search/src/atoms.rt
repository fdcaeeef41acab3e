ghost use Rattle.std.specs.Prelude.{◌≡◌, ℕ, ◌<◌, IfOk, [], map, length, is_some, unwrap_or, false};
ghost use Rattle.sd_term.specs.Bank.{tree_at, PartsBelow};
ghost use Rattle.sd_term.specs.Sorts.{sort_of};
ghost use Rattle.sd_kernel.specs.Known.{by_parts};
ghost use Rattle.sd_cube.specs.Atoms.{is_atom};
ghost use Rattle.sd_search.specs.Atoms.{atom_literals};

use sd_base::NoMemory;
use sd_kernel::is_truth_part;
use sd_term::{Bank, Head, Literal, Op, TermId, TermNode};
use sqlite_items::Items;
use std::alloc::Global;

/// Whether a term is truth-valued and isn't judged by its parts.
pub fn is_atom(terms: &Bank, id: TermId) -> bool
    requires { id < length terms.now }
    ensures { result ≡ is_atom (tree_at terms.now id) }
{
    terms.is_truth_valued(id) && !is_judged(terms, terms.node(id))
}

/// Whether the value of a node is that of its parts.
fn is_judged(terms: &Bank, node: &TermNode) -> bool
    requires { PartsBelow (length terms.now) node.now }
    ensures { result ≡ is_some (by_parts node.now.head (map (λ p. sort_of (tree_at terms.now p)) node.now.parts) []) }
{
    let Head::Op(op) = &node.head else {
        return false;
    };
    match *op {
        Op::True => true,
        Op::False => true,
        Op::Not => true,
        Op::And => true,
        Op::Or => true,
        Op::Eq => is_truth_part(terms, node, 0),
        Op::Ite => is_truth_part(terms, node, 1),
        _ => false,
    }
}

/// The values of the atoms, by ascending number. An atom without a value counts as false.
pub fn atom_literals(
    alloc: Global,
    terms: &Bank,
    values: &[Option<bool>],
) -> Result<Items<Literal>, NoMemory>
    requires { length values.now ≡ length terms.now }
    ensures { IfOk result (λ literals. literals ≡ atom_literals 0 terms.now values.now) }
{
    let mut literals = Items::new(alloc);
    for i in 0..terms.len() as usize {
        if !is_atom(terms, TermId::new(i as u32)) {
            continue;
        }
        literals.push(Literal {
            term: i as u32,
            value: is_true(values[i]),
        })?;
    }
    Ok(literals)
}

fn is_true(value: Option<bool>) -> bool
    ensures { result ≡ unwrap_or value false }
{
    match value {
        Some(value) => value,
        None => false,
    }
}
