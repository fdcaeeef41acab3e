ghost use Rattle.std.specs.Prelude.{◌≡◌, ◌<◌, ◌≤◌, ◌&&◌, length, map, take, not, IfOk, All, None, unwrap_or};
ghost use Rattle.sd_term.specs.Tree.{same_tree};
ghost use Rattle.sd_term.specs.Bank.{tree_at, PartsBelow};
ghost use Rattle.sd_term.specs.Sorts.{is_truth_sort, sort_at, sort_of};
ghost use Rattle.sd_term.specs.Truth.{same_bool};
ghost use Rattle.sd_kernel.specs.Known.{not3, and3, or3, iff3, ite3, known_at, known, by_parts, is_known, has_fact};
ghost use Rattle.sd_kernel.specs.Known.{Trail};
ghost use Rattle.sd_kernel.specs.FirstFacts.{HasFirstFacts};
ghost use Rattle.sd_kernel.specs.Facts.{trail_of};
ghost use Rattle.sd_kernel.specs.Steps.{is_contradicted};

use sd_base::NoMemory;
use sd_term::{Bank, Head, Op, TermId, TermNode};
use sqlite_items::Items;
use std::alloc::Global;

/// A term of a branch with its truth value.
#[derive(Clone, Copy, Debug)]
pub struct Fact {
    pub term: TermId,
    pub value: bool,
}

fn not_known(a: Option<bool>) -> Option<bool>
    ensures { result ≡ not3 a }
{
    match a {
        None => None,
        Some(a) => Some(!a),
    }
}

fn and_known(a: Option<bool>, b: Option<bool>) -> Option<bool>
    ensures { result ≡ and3 a b }
{
    match (a, b) {
        (Some(true), b) => b,
        (Some(false), _) => Some(false),
        (None, Some(false)) => Some(false),
        (None, _) => None,
    }
}

fn or_known(a: Option<bool>, b: Option<bool>) -> Option<bool>
    ensures { result ≡ or3 a b }
{
    match (a, b) {
        (Some(true), _) => Some(true),
        (Some(false), b) => b,
        (None, Some(true)) => Some(true),
        (None, _) => None,
    }
}

fn iff_known(a: Option<bool>, b: Option<bool>) -> Option<bool>
    ensures { result ≡ iff3 a b }
{
    match (a, b) {
        (Some(a), Some(b)) => Some(a == b),
        _ => None,
    }
}

fn ite_known(c: Option<bool>, a: Option<bool>, b: Option<bool>) -> Option<bool>
    ensures { result ≡ ite3 c a b }
{
    match c {
        Some(true) => a,
        Some(false) => b,
        None => None,
    }
}

/// The value of the part at a place.
fn part_known(node: &TermNode, place: usize, values: &[Option<bool>]) -> Option<bool>
    requires { PartsBelow (length values.now) node.now }
    ensures { result ≡ known_at (map (λ p. known_at values.now p) node.now.parts) place }
{
    match node.parts.get(place) {
        Some(part) => values[part.number() as usize],
        None => None,
    }
}

/// Whether the part at a place is truth-valued. One that isn't there counts as such.
pub fn is_truth_part(terms: &Bank, node: &TermNode, place: usize) -> bool
    requires { PartsBelow (length terms.now) node.now }
    ensures { result ≡ is_truth_sort (sort_at (map (λ p. sort_of (tree_at terms.now p)) node.now.parts) place) }
{
    match node.parts.get(place) {
        Some(part) => terms.is_truth_valued(*part),
        None => true,
    }
}

/// The value of a node by its parts, if it is judged by them.
fn value_by_parts(terms: &Bank, node: &TermNode, values: &[Option<bool>]) -> Option<Option<bool>>
    requires terms { PartsBelow (length terms.now) node.now }
    requires values { PartsBelow (length values.now) node.now }
    ensures { result ≡ by_parts node.now.head (map (λ p. sort_of (tree_at terms.now p)) node.now.parts)
        (map (λ p. known_at values.now p) node.now.parts) }
{
    let first = part_known(node, 0, values);
    let second = part_known(node, 1, values);
    let Head::Op(op) = &node.head else {
        return None;
    };
    match *op {
        Op::True => Some(Some(true)),
        Op::False => Some(Some(false)),
        Op::Not => Some(not_known(first)),
        Op::And => Some(and_known(first, second)),
        Op::Or => Some(or_known(first, second)),
        Op::Eq => {
            if is_truth_part(terms, node, 0) {
                Some(iff_known(first, second))
            } else {
                None
            }
        }
        Op::Ite => {
            if is_truth_part(terms, node, 1) {
                Some(ite_known(first, second, part_known(node, 2, values)))
            } else {
                None
            }
        }
        _ => None,
    }
}

/// The value in the first fact on each term.
fn first_values(
    alloc: Global,
    terms: &Bank,
    trail: &[Fact],
) -> Result<Items<Option<bool>>, NoMemory>
    requires { All (λ f. f.term < length terms.now) trail.now }
    ensures { IfOk result (λ firsts. HasFirstFacts terms.now (trail_of terms.now trail.now) firsts) }
{
    let mut firsts = Items::from_vec(vec![in alloc; None; terms.len() as usize]?);
    for k in (0..trail.len()).rev() {
        let fact = trail[k];
        firsts.set(fact.term.number() as usize, Some(fact.value));
    }
    Ok(firsts)
}

/// What is known of a term where that of each earlier one is at hand.
fn known_value(
    terms: &Bank,
    firsts: &[Option<bool>],
    id: TermId,
    values: &[Option<bool>],
) -> Option<bool>
    requires id { id < length terms.now }
    requires long { length firsts.now ≡ length terms.now }
    requires values { length values.now ≡ id }
    ensures { (trail : Trail) → HasFirstFacts terms.now trail firsts.now
        → values.now ≡ map (λ t. known trail t) (take id terms.now) → result ≡ known trail (tree_at terms.now id) }
{
    let node = terms.node(id);
    match value_by_parts(terms, node, values) {
        Some(value) => value,
        None => value_of(firsts, id),
    }
}

/// What is known of each term where these facts hold.
pub fn known_values(
    alloc: Global,
    terms: &Bank,
    trail: &[Fact],
) -> Result<Items<Option<bool>>, NoMemory>
    requires { All (λ f. f.term < length terms.now) trail.now }
    ensures { IfOk result (λ values. values ≡ map (λ t. known (trail_of terms.now trail.now) t) terms.now) }
{
    let firsts = first_values(alloc, terms, trail)?;
    let mut values = Items::new(alloc);
    for i in 0..terms.len() as usize {
        let id = TermId::new(i as u32);
        let value = known_value(terms, firsts.as_slice(), id, values.as_slice());
        values.push(value)?;
    }
    Ok(values)
}

/// The known value of a term.
pub fn value_of(values: &[Option<bool>], id: TermId) -> Option<bool>
    requires { id < length values.now }
    ensures { result ≡ known_at values.now id }
{
    values[id.number() as usize]
}

/// Whether a term is known to have a value.
pub fn is_value(values: &[Option<bool>], id: TermId, value: bool) -> bool
    requires { id < length values.now }
    ensures { result ≡ is_known (known_at values.now id) value }
{
    match value_of(values, id) {
        Some(known) => known == value,
        None => false,
    }
}

/// Whether a term has the opposite of a value, by its parts or by one of the first `count` facts.
pub fn is_contradicted(
    alloc: Global,
    terms: &Bank,
    trail: &[Fact],
    count: usize,
    id: TermId,
    value: bool,
) -> Result<bool, NoMemory>
    requires facts { All (λ f. f.term < length terms.now) trail.now }
    requires count { count ≤ length trail.now }
    requires id { id < length terms.now }
    ensures { IfOk result (λ r. r
        ≡ is_contradicted (trail_of terms.now trail.now) count (tree_at terms.now id, value)) }
{
    let values = known_values(alloc, terms, trail)?;
    let node = terms.node(id);
    let by_parts = value_by_parts(terms, node, values.as_slice());
    if is_opposite(by_parts, value) {
        return Ok(true);
    }
    Ok(has_value(terms, trail, count, id, !value))
}

fn is_opposite(known: Option<Option<bool>>, value: bool) -> bool
    ensures { result ≡ is_known (unwrap_or known None) (not value) }
{
    match known {
        Some(Some(known)) => known != value,
        _ => false,
    }
}

/// Whether one of the first facts is on the term and has the value.
fn has_value(terms: &Bank, trail: &[Fact], count: usize, id: TermId, value: bool) -> bool
    requires facts { All (λ f. f.term < length terms.now) trail.now }
    requires count { count ≤ length trail.now }
    requires id { id < length terms.now }
    ensures { result ≡ has_fact (take count (trail_of terms.now trail.now)) (tree_at terms.now id) value }
{
    for i in 0..count {
        if is_fact_on(terms, &trail[i], id, value) {
            return true;
        }
    }
    false
}

fn is_fact_on(terms: &Bank, fact: &Fact, id: TermId, value: bool) -> bool
    requires fact { fact.now.term < length terms.now }
    requires id { id < length terms.now }
    ensures { result ≡ (same_tree (tree_at terms.now fact.now.term)
        (tree_at terms.now id) && same_bool fact.now.value value) }
{
    terms.same_term(fact.term, id) && fact.value == value
}
