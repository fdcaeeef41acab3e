ghost use Rattle.std.specs.Prelude.{◌≡◌, ℕ, ◌<◌, ◌^◌, ◌||◌, [], true, false, IfOk, length, List};
ghost use Rattle.sd_rows.specs.declared.row.Row.{Row};
ghost use Rattle.sd_linear.specs.RowSteps.{rows_made, Refutes, names, AreUseful};
ghost use Rattle.sd_linear.specs.Values.{AllWithin};
ghost use Rattle.sd_linear.specs.Pruning.{AllEarlier, AreNeeded, is_marked, renumbered};
ghost use Rattle.sd_linear.specs.Answers.{IsRefutation};

use crate::step::RowStep;
use sd_base::NoMemory;
use sd_rows::Row;
use sqlite_items::Items;
use std::alloc::Global;

/// The steps from which the last one is made, by way of others, with numbers of their own.
pub(crate) fn needed(
    alloc: Global,
    inputs: &[Row],
    steps: &[RowStep],
) -> Result<Items<RowStep>, NoMemory>
    requires refutes { Refutes inputs.now steps.now }
    requires within { AllWithin (rows_made inputs.now steps.now) }
    requires useful { AreUseful inputs.now [] steps.now }
    ensures { IfOk result (λ kept. IsRefutation inputs.now kept) }
{
    if steps.len() > u32::MAX as usize {
        return Err(NoMemory);
    }
    let marks = marked(alloc, steps)?;
    copied(alloc, steps, marks.as_slice())
}

/// Marks the last step, and each step from which a marked one is made.
fn marked(alloc: Global, steps: &[RowStep]) -> Result<Items<bool>, NoMemory>
    requires some { 0 < length steps.now }
    requires earlier { AllEarlier steps.now }
    ensures { IfOk result (λ marks. AreNeeded steps.now marks) }
{
    let mut marks = Items::from_vec(vec![in alloc; false; steps.len()]?);
    marks.set(steps.len() - 1, true);
    for i in (0..steps.len()).rev() {
        if marks.as_slice()[i] {
            mark_parts(&mut marks, steps[i]);
        }
    }
    Ok(marks)
}

/// Marks the steps from which a step is made.
fn mark_parts(marks: &mut Items<bool>, step: RowStep)
    requires { (j : ℕ) → names step j ≡ true → j < length marks.old }
    ensures count { length marks.new ≡ length marks.old }
    ensures marks { (j : ℕ) → is_marked marks.new j ≡ (is_marked marks.old j || names step j) }
{
    match step {
        RowStep::Input(_) => {}
        RowStep::Add(a, _, b, _) => {
            marks.set(a as usize, true);
            marks.set(b as usize, true);
        }
        RowStep::Cut(a) => marks.set(a as usize, true),
    }
}

/// The marked steps, each with the new numbers of the steps from which it is made.
fn copied(alloc: Global, steps: &[RowStep], marks: &[bool]) -> Result<Items<RowStep>, NoMemory>
    requires some { 0 < length steps.now }
    requires small { length steps.now < 2 ^ 32 }
    requires earlier { AllEarlier steps.now }
    requires marks { AreNeeded steps.now marks.now }
    ensures { IfOk result (λ kept. (inputs : List Row) → Refutes inputs steps.now
        → AllWithin (rows_made inputs steps.now) → AreUseful inputs [] steps.now → IsRefutation inputs kept) }
{
    let mut kept = Items::new(alloc);
    let mut numbers = Vec::new(alloc);
    for (i, step) in steps.iter().enumerate() {
        let number = kept.len() as u32;
        if marks[i] {
            kept.push(renumbered(*step, &numbers))?;
        }
        numbers.push(number)?;
    }
    Ok(kept)
}

/// The step by the new numbers.
fn renumbered(step: RowStep, numbers: &[u32]) -> RowStep
    requires { (j : ℕ) → names step j ≡ true → j < length numbers.now }
    ensures { result ≡ renumbered numbers.now step }
{
    match step {
        RowStep::Input(i) => RowStep::Input(i),
        RowStep::Add(a, m, b, n) => { RowStep::Add(numbers[a as usize], m, numbers[b as usize], n) }
        RowStep::Cut(a) => RowStep::Cut(numbers[a as usize]),
    }
}
