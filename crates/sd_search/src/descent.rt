ghost use Rattle.std.specs.Prelude.{◌≡◌, ◌≢◌, ℕ, ◌<◌, ◌≤◌, ◌^◌, List, All, IfSome, IfNone, IsTrue, ◌↔◌, Some, None, true, false, length, map, get_or};
ghost use Rattle.sd_term.specs.Bank.{tree_at};
ghost use Rattle.sd_term.specs.Sorts.{AllWellSorted, IsWellSorted, is_truth_valued};
ghost use Rattle.sd_term.specs.Tree.{Tree};
ghost use Rattle.sd_term.specs.Heads.{Ite};
ghost use Rattle.sd_kernel.specs.Known.{Trail, known_at};
ghost use Rattle.sd_cube.specs.Spent.{Reaches};
ghost use Rattle.sd_cube.specs.Atoms.{is_atom};
ghost use Rattle.sd_search.specs.Terms.{AreValues, AreValuesUnder, IsOpenAtom, IsOpenPart, IsReachedAtom};

use crate::atoms::is_atom;
use sd_term::{Bank, Head, Op, TermId};

/// The place of the first fact that is known to be false.
pub fn false_fact(facts: &[TermId], values: &[Option<bool>]) -> Option<u32>
    requires facts { All (λ f. f < length values.now) facts.now }
    requires short { length facts.now < 2 ^ 32 }
    ensures some { IfSome result (λ k. (k < length facts.now)
        × (known_at values.now (get_or facts.now k 0) ≡ Some false)) }
    ensures none { IfNone result ((k : ℕ) → k < length facts.now
        → known_at values.now (get_or facts.now k 0) ≢ Some false) }
{
    for i in 0..facts.len() {
        if is_false(values[facts[i].number() as usize]) {
            return Some(i as u32);
        }
    }
    None
}

fn is_false(value: Option<bool>) -> bool
    ensures { IsTrue result ↔ (value ≡ Some false) }
{
    match value {
        Some(value) => !value,
        None => false,
    }
}

/// The first atom without a value.
pub fn open_atom(terms: &Bank, values: &[Option<bool>]) -> Option<u32>
    requires { length values.now ≡ length terms.now }
    ensures some { IfSome result (λ n. IsOpenAtom terms.now values.now n) }
    ensures none { IfNone result ((n : ℕ) → n < length terms.now → is_atom (tree_at terms.now n) ≡ true
        → known_at values.now n ≢ None) }
{
    for i in 0..terms.len() as usize {
        if values[i].is_none() && is_atom(terms, TermId::new(i as u32)) {
            return Some(i as u32);
        }
    }
    None
}

/// An atom without a value that is reached from a fact without one, the last such fact first.
pub fn reached_atom(terms: &Bank, facts: &[TermId], values: &[Option<bool>]) -> Option<u32>
    requires sorted { AllWellSorted terms.now }
    requires facts { All (λ f. (f < length terms.now) × (is_truth_valued (tree_at terms.now f) ≡ true)) facts.now }
    requires values { AreValues terms.now values.now }
    ensures some { IfSome result
        (λ n. IsReachedAtom (map (λ f. tree_at terms.now f) facts.now) terms.now values.now n) }
    ensures none { IfNone result ((k : ℕ) → k < length facts.now → known_at values.now (get_or facts.now k 0) ≢ None) }
{
    for i in 0..facts.len() {
        let fact = facts[facts.len() - 1 - i];
        if values[fact.number() as usize].is_none() {
            return Some(atom_below(terms, values, fact));
        }
    }
    None
}

/// An atom without a value, going from a term without a value to parts without a value.
fn atom_below(terms: &Bank, values: &[Option<bool>], fact: TermId) -> u32
    requires fact { fact < length terms.now }
    requires sorted { AllWellSorted terms.now }
    requires values { AreValues terms.now values.now }
    requires truth { is_truth_valued (tree_at terms.now fact) ≡ true }
    requires unknown { known_at values.now fact ≡ None }
    ensures atom { IsOpenAtom terms.now values.now result }
    ensures reached { (trail : Trail) → AreValuesUnder trail terms.now values.now → (way : List Tree)
        × Reaches trail (tree_at terms.now fact) way (tree_at terms.now result) }
{
    let mut term = fact;
    while !is_atom(terms, term) {
        term = open_part(terms, values, term);
    }
    term.number()
}

/// The first part without a value that matters to the value of a term without one.
fn open_part(terms: &Bank, values: &[Option<bool>], id: TermId) -> TermId
    requires id { id < length terms.now }
    requires sorted { AllWellSorted terms.now }
    requires values { AreValues terms.now values.now }
    requires truth { is_truth_valued (tree_at terms.now id) ≡ true }
    requires judged { is_atom (tree_at terms.now id) ≡ false }
    requires unknown { known_at values.now id ≡ None }
    ensures { IsOpenPart terms.now values.now id result }
{
    let node = terms.node(id);
    let parts = node.parts.as_slice();
    let first = if chooses_the_second(&node.head, values, parts) {
        2
    } else {
        0
    };
    for place in first..parts.len() {
        let part = parts[place];
        if values[part.number() as usize].is_none() {
            return part;
        }
    }
    unreachable!()
}

/// Whether the head is a choice with a false condition.
fn chooses_the_second(head: &Head, values: &[Option<bool>], parts: &[TermId]) -> bool
    requires { All (λ p. p < length values.now) parts.now }
    ensures choice { IsTrue result → head.now ≡ Ite }
    ensures condition { IsTrue result → known_at (map (λ p. known_at values.now p) parts.now) 0 ≡ Some false }
{
    let Head::Op(Op::Ite) = head else {
        return false;
    };
    match parts.get(0) {
        Some(condition) => is_false(values[condition.number() as usize]),
        None => false,
    }
}
