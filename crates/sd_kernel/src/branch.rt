ghost use Rattle.std.specs.Prelude.{◌<◌, All, IfOk, length};
ghost use Rattle.sd_kernel.specs.declared.step.Step.{Step};
ghost use Rattle.sd_kernel.specs.Known.{Trail};
ghost use Rattle.sd_kernel.specs.Facts.{trail_of};
ghost use Rattle.sd_kernel.specs.Effects.{IsEffectOf, IsEffectOn};

use crate::effect::Effect;
use crate::known::{Fact, is_contradicted};
use crate::nodes::are_numbers;
use crate::step::StepCause;
use sd_base::NoMemory;
use sd_term::{Bank, TermId};
use std::alloc::Global;

/// What the step does that splits a branch on a truth-valued term.
pub fn split_effect(terms: &Bank, number: u32) -> Effect
    ensures effect { (trail : Trail) → IsEffectOf terms.now trail (Step.Split number) result }
    ensures fits { IsEffectOn terms.now result }
{
    if !are_numbers(terms, &[number]) {
        return Effect::bad(StepCause::Number);
    }
    let term = TermId::new(number);
    if !terms.is_truth_valued(term) {
        return Effect::bad(StepCause::Shape);
    }
    Effect::Splits(term)
}

/// What the step does that closes a branch: a fact of it has a term with the opposite value, by its parts or by an
/// earlier fact.
pub fn close_effect(
    alloc: Global,
    terms: &Bank,
    trail: &[Fact],
    number: u32,
) -> Result<Effect, NoMemory>
    requires facts { All (λ f. f.term < length terms.now) trail.now }
    ensures effect { IfOk result (IsEffectOf terms.now (trail_of terms.now trail.now) (Step.Close number)) }
    ensures fits { IfOk result (IsEffectOn terms.now) }
{
    let place = number as usize;
    if place >= trail.len() {
        return Ok(Effect::bad(StepCause::Number));
    }
    let fact = &trail[place];
    if !is_contradicted(alloc, terms, trail, place, fact.term, fact.value)? {
        return Ok(Effect::bad(StepCause::Value));
    }
    Ok(Effect::Closes)
}
