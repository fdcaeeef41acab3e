ghost use Rattle.std.specs.Prelude.{◌≡◌, ℕ, ◌<◌, IfSome, IfNone, length};
ghost use Rattle.sd_term.specs.Bank.{tree_at};
ghost use Rattle.sd_term.specs.Sorts.{AllWellSorted};
ghost use Rattle.sd_cube.specs.Required.{IsChoice, ChoicesHold};
ghost use Rattle.sd_euf.specs.Table.{IsLeftTable};
ghost use Rattle.sd_euf.specs.Judged.{IsChoiceOf, chosen_number, Judges, ChoiceHolds};

use crate::find::{Standing, standing_of};
use crate::judged::Judged;
use crate::table::LeftTable;
use sd_kernel::{NodeLine, Step, is_op};
use sd_term::{Bank, Op, TermId};

/// The condition of a choice, with the part where it is true and the part where it is false.
#[derive(Clone, Copy, Debug)]
pub struct Choice {
    pub condition: TermId,
    pub first: TermId,
    pub second: TermId,
}

/// The parts of a choice that isn't truth-valued.
fn choice_of(terms: &Bank, id: TermId) -> Option<Choice>
    requires id { id < length terms.now }
    requires sorted { AllWellSorted terms.now }
    ensures some { IfSome result (λ c. IsChoiceOf terms.now (tree_at terms.now id) c) }
    ensures none { IfNone result (IsChoice (tree_at terms.now id) → ⊥) }
{
    if terms.is_truth_valued(id) {
        return None;
    }
    let node = terms.node(id);
    if !is_op(&node.head, Op::Ite) {
        return None;
    }
    let parts = node.parts.as_slice();
    if parts.len() != 3 {
        return None;
    }
    Some(Choice {
        condition: parts[0],
        first: parts[1],
        second: parts[2],
    })
}

/// A new equality of two terms.
fn eq_step(left: TermId, right: TermId) -> Step
    ensures { result ≡ Step.Term (NodeLine.Eq left right) }
{
    Step::Term(NodeLine::Eq(left.number(), right.number()))
}

/// The choice equals the part that it chooses.
fn ite_step(choice: TermId, eq: u32) -> Step
    ensures { result ≡ Step.Ite choice eq }
{
    Step::Ite(choice.number(), eq)
}

/// The part that is chosen by the value of the condition.
fn chosen(choice: Choice, value: bool) -> TermId
    ensures { result ≡ chosen_number choice value }
{
    if value { choice.first } else { choice.second }
}

/// Whether a choice with a known condition equals the part that it chooses.
fn judged_choice(terms: &Bank, table: &LeftTable, values: &[Option<bool>], id: TermId) -> Judged
    requires table { IsLeftTable terms.now table.now (length terms.now) }
    requires id { id < length terms.now }
    requires sorted { AllWellSorted terms.now }
    requires long { length values.now ≡ length terms.now }
    ensures { Judges terms.now values.now (ChoiceHolds terms.now (tree_at terms.now id)) result }
{
    let Some(choice) = choice_of(terms, id) else {
        return Judged::Holds;
    };
    let Some(value) = values[choice.condition.number() as usize] else {
        return Judged::Holds;
    };
    let part = chosen(choice, value);
    match standing_of(terms, table, values, Op::Eq, id, part) {
        Standing::Absent => Judged::Missing(eq_step(id, part)),
        Standing::Unknown(eq) => Judged::Missing(Step::Split(eq)),
        Standing::Known(eq, holds) => {
            if holds {
                return Judged::Holds;
            }
            Judged::Broken(ite_step(id, eq))
        }
    }
}

/// Whether each choice with a known condition equals the part that it chooses. The first one that doesn't is answered
/// before what is missing.
pub fn judged_choices(terms: &Bank, table: &LeftTable, values: &[Option<bool>]) -> Judged
    requires table { IsLeftTable terms.now table.now (length terms.now) }
    requires sorted { AllWellSorted terms.now }
    requires long { length values.now ≡ length terms.now }
    ensures { Judges terms.now values.now (ChoicesHold terms.now) result }
{
    let mut missing = None;
    for i in 0..terms.len() as usize {
        let step = match judged_choice(terms, table, values, TermId::new(i as u32)) {
            Judged::Holds => continue,
            Judged::Broken(step) => return Judged::Broken(step),
            Judged::Missing(step) => step,
        };
        missing = Some(step);
    }
    match missing {
        Some(step) => Judged::Missing(step),
        None => Judged::Holds,
    }
}
