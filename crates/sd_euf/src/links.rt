ghost use Rattle.std.specs.Prelude.{◌≡◌, ◌<◌, [], ◌∷◌, IfOk, IfSome, IfNone, OnOk, length, true, Some, ℕ, List, Option, Bool};
ghost use Rattle.sd_term.specs.Tree.{Tree};
ghost use Rattle.sd_term.specs.Bank.{tree_at};
ghost use Rattle.sd_term.specs.Sorts.{AllWellSorted};
ghost use Rattle.sd_kernel.specs.Known.{Trail};
ghost use Rattle.sd_kernel.specs.Steps.{other_side};
ghost use Rattle.sd_cube.specs.Required.{AreJoined};
ghost use Rattle.sd_euf.specs.Judged.{IsPair, HasValues};
ghost use Rattle.sd_euf.specs.Links.{IsEqAt, IsChain, link_at, reached_at, GoDown, AreLinks, IsReached, AreReached, AreMore};

use crate::find::{Pair, pair_of};
use sd_base::NoMemory;
use sd_term::{Bank, Op, TermId};
use sqlite_items::Items;
use std::alloc::Global;

/// A term that is reached, by the number of an equality, from the term in an earlier place.
#[derive(Clone, Copy, Debug)]
pub struct Link {
    pub term: u32,
    pub by: u32,
    pub from: usize,
}

/// The sides of an equality with this value.
pub fn sides_of(terms: &Bank, values: &[Option<bool>], id: TermId, value: bool) -> Option<Pair>
    requires id { id < length terms.now }
    requires sorted { AllWellSorted terms.now }
    requires long { length values.now ≡ length terms.now }
    ensures pair { IfSome result (λ p. IsPair terms.now Op.Eq (tree_at terms.now id) p) }
    ensures some { IfSome result (λ p. IsEqAt terms.now values.now id value) }
    ensures none { IfNone result (IsEqAt terms.now values.now id value → ⊥) }
{
    let Some(known) = values[id.number() as usize] else {
        return None;
    };
    if known != value {
        return None;
    }
    let Some(pair) = pair_of(terms, Op::Eq, id) else {
        return None;
    };
    Some(pair)
}

/// The other side of a true equality that has the term as a side.
fn neighbour(terms: &Bank, values: &[Option<bool>], id: TermId, here: TermId) -> Option<TermId>
    requires id { id < length terms.now }
    requires here { here < length terms.now }
    requires sorted { AllWellSorted terms.now }
    requires long { length values.now ≡ length terms.now }
    ensures below { IfSome result (λ n. n < length terms.now) }
    ensures by { IfSome result (λ n. IsEqAt terms.now values.now id true) }
    ensures some { IfSome result (λ n. other_side (tree_at terms.now id) (tree_at terms.now here)
        ≡ Some (tree_at terms.now n)) }
    ensures none { IfNone result (IsEqAt terms.now values.now id true → (t : Tree)
        → other_side (tree_at terms.now id) (tree_at terms.now here) ≡ Some t → ⊥) }
{
    let Some(pair) = sides_of(terms, values, id, true) else {
        return None;
    };
    if terms.same_term(pair.left, here) {
        return Some(pair.right);
    }
    if terms.same_term(pair.right, here) {
        return Some(pair.left);
    }
    None
}

/// The first place of a term among those that are reached.
fn place_of(terms: &Bank, links: &[Link], term: TermId) -> Option<usize>
    requires term { term < length terms.now }
    requires below { (k : ℕ) → k < length links.now → (link_at links.now k).term < length terms.now }
    ensures within { IfSome result (λ at. at < length links.now) }
    ensures some { IfSome result (λ at. reached_at terms.now links.now at ≡ tree_at terms.now term) }
    ensures none { IfNone result (IsReached terms.now links.now (tree_at terms.now term) → ⊥) }
{
    for i in 0..links.len() {
        let number = links[i].term;
        if terms.same_term(TermId::new(number), term) {
            return Some(i);
        }
    }
    None
}

/// Reaches the terms that a true equality joins to the one in a place.
fn reach_neighbours(
    terms: &Bank,
    values: &[Option<bool>],
    links: &mut Items<Link>,
    at: usize,
) -> Result<(), NoMemory>
    requires sorted { AllWellSorted terms.now }
    requires long { length values.now ≡ length terms.now }
    requires links { AreLinks terms.now values.now links.old }
    requires at { at < length links.old }
    ensures links { OnOk result (AreLinks terms.now values.now links.new) }
    ensures more { OnOk result (AreMore links.old links.new) }
    ensures reached { OnOk result (AreReached terms.now values.now links.new at (length terms.now)) }
{
    let here = TermId::new(links.as_slice()[at].term);
    for i in 0..terms.len() as usize {
        let Some(other) = neighbour(terms, values, TermId::new(i as u32), here) else {
            continue;
        };
        if let Some(_) = place_of(terms, links.as_slice(), other) {
            continue;
        }
        links.push(Link {
            term: other.number(),
            by: i as u32,
            from: at,
        })?;
    }
    Ok(())
}

/// All terms that true equalities join to a root, which is the first.
fn links_from(
    alloc: Global,
    terms: &Bank,
    values: &[Option<bool>],
    root: TermId,
) -> Result<Items<Link>, NoMemory>
    requires root { root < length terms.now }
    requires sorted { AllWellSorted terms.now }
    requires long { length values.now ≡ length terms.now }
    ensures links { IfOk result (λ links. AreLinks terms.now values.now links) }
    ensures root { IfOk result (λ links. (link_at links 0).term ≡ root) }
    ensures reached { IfOk result (λ links. (k : ℕ) → k < length links
        → AreReached terms.now values.now links k (length terms.now)) }
{
    let mut links = Items::new(alloc);
    links.push(Link {
        term: root.number(),
        by: 0,
        from: 0,
    })?;
    let mut at = 0;
    'places: while at < links.len() {
        reach_neighbours(terms, values, &mut links, at)?;
        at += 1;
    }
    Ok(links)
}

/// The equalities from the term in a place back to the root.
fn chain_from(alloc: Global, links: &[Link], at: usize) -> Result<Items<u32>, NoMemory>
    requires at { at < length links.now }
    requires down { GoDown links.now }
    ensures { IfOk result (λ chain. (terms : List Tree) (values : List (Option Bool)) → AreLinks terms values links.now
        → IsChain terms values (reached_at terms links.now at) chain (reached_at terms links.now 0)) }
{
    let mut chain = Items::new(alloc);
    let mut here = at;
    while here > 0 {
        chain.push(links[here].by)?;
        here = links[here].from;
    }
    Ok(chain)
}

/// True equalities that lead from one term to another, where they are joined. No equality leads from a term to itself.
pub fn chain_between(
    alloc: Global,
    terms: &Bank,
    values: &[Option<bool>],
    from: TermId,
    to: TermId,
) -> Result<Option<Items<u32>>, NoMemory>
    requires from { from < length terms.now }
    requires to { to < length terms.now }
    requires sorted { AllWellSorted terms.now }
    requires long { length values.now ≡ length terms.now }
    ensures chain { IfOk result (λ r.
        IfSome r (λ ns. IsChain terms.now values.now (tree_at terms.now from) ns (tree_at terms.now to))) }
    ensures short { IfOk result (λ r. IfSome r (λ ns. tree_at terms.now from ≡ tree_at terms.now to → ns ≡ [])) }
    ensures none { IfOk result (λ r. IfNone r ((trail : Trail) → HasValues terms.now trail values.now
        → AreJoined terms.now trail (tree_at terms.now from) (tree_at terms.now to) → ⊥)) }
{
    if terms.same_term(from, to) {
        return Ok(Some(Items::new(alloc)));
    }
    let links = links_from(alloc, terms, values, to)?;
    let Some(at) = place_of(terms, links.as_slice(), from) else {
        return Ok(None);
    };
    let chain = chain_from(alloc, links.as_slice(), at)?;
    Ok(Some(chain))
}
