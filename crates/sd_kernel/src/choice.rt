ghost use Rattle.std.specs.Prelude.{◌≡◌, ◌<◌, All, IfOk, length, true};
ghost use Rattle.sd_term.specs.Tree.{head_of};
ghost use Rattle.sd_term.specs.Bank.{tree_at};
ghost use Rattle.sd_term.specs.Sorts.{AllWellSorted};
ghost use Rattle.sd_kernel.specs.declared.step.Step.{Step};
ghost use Rattle.sd_kernel.specs.Facts.{trail_of};
ghost use Rattle.sd_kernel.specs.Steps.{is_eq_of, is_ite_head, is_choice_of};
ghost use Rattle.sd_kernel.specs.Effects.{chosen_by, IsEffectOf, IsEffectOn};
ghost use Rattle.sd_forms.specs.FactRows.{part_at};

use crate::effect::Effect;
use crate::known::{Fact, known_values, value_of};
use crate::nodes::{are_numbers, is_ite, is_node_of, part};
use crate::step::StepCause;
use sd_base::NoMemory;
use sd_term::{Bank, Op, TermId};
use std::alloc::Global;

/// Whether a term is the equality of a choice and one of its parts.
fn is_equal_part(terms: &Bank, choice: TermId, equality: TermId, place: usize) -> bool
    requires sorted { AllWellSorted terms.now }
    requires choice { choice < length terms.now }
    requires equality { equality < length terms.now }
    requires is_ite { is_ite_head (head_of (tree_at terms.now choice)) ≡ true }
    requires place { place < 3 }
    ensures { result ≡ is_eq_of (tree_at terms.now equality) (tree_at terms.now choice)
        (part_at (tree_at terms.now choice) place) }
{
    let chosen = part(terms, choice, place);
    is_node_of(terms, equality, Op::Eq, choice, chosen)
}

/// Whether a term is a choice, and another one the equality of it and one of the two parts to choose from.
fn is_choice_of(terms: &Bank, choice: TermId, equality: TermId) -> bool
    requires sorted { AllWellSorted terms.now }
    requires choice { choice < length terms.now }
    requires equality { equality < length terms.now }
    ensures { result ≡ is_choice_of (tree_at terms.now choice) (tree_at terms.now equality) }
{
    if !is_ite(terms, choice) {
        return false;
    }
    if is_equal_part(terms, choice, equality, 1) {
        return true;
    }
    is_equal_part(terms, choice, equality, 2)
}

/// Whether the value of a choice's condition is known, and a term the equality of the choice and the part that it
/// chooses.
fn is_chosen(terms: &Bank, condition: Option<bool>, choice: TermId, equality: TermId) -> bool
    requires sorted { AllWellSorted terms.now }
    requires choice { choice < length terms.now }
    requires equality { equality < length terms.now }
    requires is_ite { is_ite_head (head_of (tree_at terms.now choice)) ≡ true }
    ensures { result ≡ chosen_by condition (tree_at terms.now choice) (tree_at terms.now equality) }
{
    match condition {
        Some(true) => is_equal_part(terms, choice, equality, 1),
        Some(false) => is_equal_part(terms, choice, equality, 2),
        None => false,
    }
}

/// What the step does that makes a choice equal to the part that is chosen by the known value of its condition.
pub fn ite_effect(
    alloc: Global,
    terms: &Bank,
    trail: &[Fact],
    choice: u32,
    equality: u32,
) -> Result<Effect, NoMemory>
    requires facts { All (λ f. f.term < length terms.now) trail.now }
    requires sorted { AllWellSorted terms.now }
    ensures effect { IfOk result (IsEffectOf terms.now (trail_of terms.now trail.now) (Step.Ite choice equality)) }
    ensures fits { IfOk result (IsEffectOn terms.now) }
{
    if !are_numbers(terms, &[choice, equality]) {
        return Ok(Effect::bad(StepCause::Number));
    }
    let choice = TermId::new(choice);
    let equality = TermId::new(equality);
    if !is_choice_of(terms, choice, equality) {
        return Ok(Effect::bad(StepCause::Shape));
    }
    let values = known_values(alloc, terms, trail)?;
    let condition = value_of(values.as_slice(), part(terms, choice, 0));
    if !is_chosen(terms, condition, choice, equality) {
        return Ok(Effect::bad(StepCause::Value));
    }
    Ok(Effect::Adds(equality, true))
}
