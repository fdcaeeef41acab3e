ghost use Rattle.std.specs.Prelude.{◌≡◌, ℕ, ◌<◌, All, IfOk, IfSome, length, map, true};
ghost use Rattle.std.specs.List.{list_all};
ghost use Rattle.std.specs.Prelude.{option_map};
ghost use Rattle.sd_term.specs.Bank.{tree_at};
ghost use Rattle.sd_term.specs.Sorts.{AllWellSorted};
ghost use Rattle.sd_kernel.specs.declared.step.Step.{Step};
ghost use Rattle.sd_kernel.specs.Known.{is_known, known_at};
ghost use Rattle.sd_kernel.specs.Facts.{trail_of};
ghost use Rattle.sd_kernel.specs.Steps.{leads, is_chain};
ghost use Rattle.sd_kernel.specs.Effects.{across, IsEffectOf, IsEffectOn};

use crate::effect::Effect;
use crate::known::{Fact, is_value, known_values};
use crate::nodes::{are_numbers, is_eq, part};
use crate::step::StepCause;
use sd_base::NoMemory;
use sd_term::{Bank, TermId};
use std::alloc::Global;

/// The side of an equality that isn't the given term, where the other side is.
fn across(terms: &Bank, link: TermId, side: TermId) -> Option<TermId>
    requires sorted { AllWellSorted terms.now }
    requires link { link < length terms.now }
    requires side { side < length terms.now }
    ensures tree { option_map (λ n. tree_at terms.now n) result
        ≡ across (tree_at terms.now link) (tree_at terms.now side) }
    ensures number { IfSome result (λ n. n < length terms.now) }
{
    if !is_eq(terms, link) {
        return None;
    }
    let first = part(terms, link, 0);
    let second = part(terms, link, 1);
    if terms.same_term(first, side) {
        return Some(second);
    }
    if terms.same_term(second, side) {
        return Some(first);
    }
    None
}

/// Whether equalities lead from a term to another one, each of them either way round.
fn leads(terms: &Bank, first: TermId, links: &[u32], last: TermId) -> bool
    requires sorted { AllWellSorted terms.now }
    requires first { first < length terms.now }
    requires links { All (λ n. n < length terms.now) links.now }
    requires last { last < length terms.now }
    ensures { result ≡ leads (tree_at terms.now first) (map (λ n. tree_at terms.now n) links.now)
        (tree_at terms.now last) }
{
    let mut side = first;
    for link in links {
        match across(terms, TermId::new(*link), side) {
            Some(next) => side = next,
            None => return false,
        }
    }
    terms.same_term(side, last)
}

/// Whether a term is an equality, and the others lead from one side of it to the other, or are none where the two are
/// one.
fn is_chain(terms: &Bank, equality: TermId, links: &[u32]) -> bool
    requires sorted { AllWellSorted terms.now }
    requires equality { equality < length terms.now }
    requires links { All (λ n. n < length terms.now) links.now }
    ensures { result ≡ is_chain (tree_at terms.now equality) (map (λ n. tree_at terms.now n) links.now) }
{
    if !is_eq(terms, equality) {
        return false;
    }
    let first = part(terms, equality, 0);
    let last = part(terms, equality, 1);
    if !leads(terms, first, links, last) {
        return false;
    }
    if links.is_empty() {
        return true;
    }
    !terms.same_term(first, last)
}

/// Whether all terms are known to be true.
fn are_true(values: &[Option<bool>], links: &[u32]) -> bool
    requires { All (λ n. n < length values.now) links.now }
    ensures { result ≡ list_all (λ n. is_known (known_at values.now n) true) links.now }
{
    for link in links {
        if !is_value(values, TermId::new(*link), true) {
            return false;
        }
    }
    true
}

/// What the step does that makes an equality true: true equalities lead from one side of it to the other.
pub fn chain_effect(
    alloc: Global,
    terms: &Bank,
    trail: &[Fact],
    equality: u32,
    links: &[u32],
) -> Result<Effect, NoMemory>
    requires facts { All (λ f. f.term < length terms.now) trail.now }
    requires sorted { AllWellSorted terms.now }
    ensures effect { IfOk result (IsEffectOf terms.now (trail_of terms.now trail.now) (Step.Chain equality links.now)) }
    ensures fits { IfOk result (IsEffectOn terms.now) }
{
    if !are_numbers(terms, &[equality]) {
        return Ok(Effect::bad(StepCause::Number));
    }
    if !are_numbers(terms, links) {
        return Ok(Effect::bad(StepCause::Number));
    }
    let equality = TermId::new(equality);
    if !is_chain(terms, equality, links) {
        return Ok(Effect::bad(StepCause::Shape));
    }
    let values = known_values(alloc, terms, trail)?;
    if !are_true(values.as_slice(), links) {
        return Ok(Effect::bad(StepCause::Value));
    }
    Ok(Effect::Adds(equality, true))
}
