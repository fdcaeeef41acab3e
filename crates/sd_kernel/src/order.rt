ghost use Rattle.std.specs.Prelude.{◌≡◌, ◌<◌, ◌&&◌, All, IfOk, length, true, false};
ghost use Rattle.sd_term.specs.Bank.{tree_at};
ghost use Rattle.sd_term.specs.Sorts.{AllWellSorted};
ghost use Rattle.sd_kernel.specs.declared.step.Step.{Step};
ghost use Rattle.sd_kernel.specs.Known.{is_known, known_at};
ghost use Rattle.sd_kernel.specs.Facts.{trail_of};
ghost use Rattle.sd_kernel.specs.Steps.{is_le_of, are_orders_of};
ghost use Rattle.sd_kernel.specs.Effects.{IsEffectOf, IsEffectOn};

use crate::effect::Effect;
use crate::known::{Fact, is_value, known_values};
use crate::nodes::{are_numbers, is_node_of, part};
use crate::step::StepCause;
use sd_base::NoMemory;
use sd_forms::is_int_eq;
use sd_term::{Bank, Op, TermId};
use std::alloc::Global;

/// Whether one term is the order of two terms, and another one the order the other way round.
fn are_opposite(terms: &Bank, one: TermId, other: TermId, first: TermId, second: TermId) -> bool
    requires one { one < length terms.now }
    requires other { other < length terms.now }
    requires first { first < length terms.now }
    requires second { second < length terms.now }
    ensures { result ≡ (is_le_of (tree_at terms.now one) (tree_at terms.now first) (tree_at terms.now second)
        && is_le_of (tree_at terms.now other) (tree_at terms.now second) (tree_at terms.now first)) }
{
    if !is_node_of(terms, one, Op::Le, first, second) {
        return false;
    }
    is_node_of(terms, other, Op::Le, second, first)
}

/// Whether a term is an equality of integers, and the others are the two orders of its sides.
fn are_orders_of(terms: &Bank, equality: TermId, one: TermId, other: TermId) -> bool
    requires sorted { AllWellSorted terms.now }
    requires equality { equality < length terms.now }
    requires one { one < length terms.now }
    requires other { other < length terms.now }
    ensures { result ≡ are_orders_of (tree_at terms.now equality) (tree_at terms.now one) (tree_at terms.now other) }
{
    if !is_int_eq(terms, equality) {
        return false;
    }
    let first = part(terms, equality, 0);
    let second = part(terms, equality, 1);
    if are_opposite(terms, one, other, first, second) {
        return true;
    }
    are_opposite(terms, one, other, second, first)
}

/// Whether one term is known to be false, and another one to be true.
fn are_false_and_true(values: &[Option<bool>], one: TermId, other: TermId) -> bool
    requires one { one < length values.now }
    requires other { other < length values.now }
    ensures { result ≡ (is_known (known_at values.now one) false && is_known (known_at values.now other) true) }
{
    if !is_value(values, one, false) {
        return false;
    }
    is_value(values, other, true)
}

/// What the step does that makes an order false: the equality of its sides is false, and their other order is true.
pub fn order_effect(
    alloc: Global,
    terms: &Bank,
    trail: &[Fact],
    equality: u32,
    known: u32,
    other: u32,
) -> Result<Effect, NoMemory>
    requires facts { All (λ f. f.term < length terms.now) trail.now }
    requires sorted { AllWellSorted terms.now }
    ensures effect { IfOk result (IsEffectOf terms.now (trail_of terms.now trail.now)
        (Step.Order equality known other)) }
    ensures fits { IfOk result (IsEffectOn terms.now) }
{
    if !are_numbers(terms, &[equality, known, other]) {
        return Ok(Effect::bad(StepCause::Number));
    }
    let equality = TermId::new(equality);
    let known = TermId::new(known);
    let other = TermId::new(other);
    if !are_orders_of(terms, equality, known, other) {
        return Ok(Effect::bad(StepCause::Shape));
    }
    let values = known_values(alloc, terms, trail)?;
    if !are_false_and_true(values.as_slice(), equality, known) {
        return Ok(Effect::bad(StepCause::Value));
    }
    Ok(Effect::Adds(other, false))
}
