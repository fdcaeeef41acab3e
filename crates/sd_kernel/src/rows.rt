ghost use Rattle.std.specs.Prelude.{◌≡◌, ◌<◌, ◌≤◌, ◌^◌, ◌&&◌, All, IfOk, length, map, [], true};
ghost use Rattle.sd_term.specs.Bank.{tree_at};
ghost use Rattle.sd_term.specs.Sorts.{AllWellSorted, IsWellSorted};
ghost use Rattle.sd_rows.specs.Rows.{AllComputable, is_absurd};
ghost use Rattle.sd_forms.specs.LinearForms.{form_of};
ghost use Rattle.sd_kernel.specs.declared.step.Step.{Step};
ghost use Rattle.sd_kernel.specs.declared.step.RowLine.{RowLine};
ghost use Rattle.sd_kernel.specs.Facts.{trail_of, fact_of};
ghost use Rattle.sd_kernel.specs.Steps.{row_of_fact, row_back, is_multiplier, row_of_line};
ghost use Rattle.sd_kernel.specs.Effects.{IsEffectOf, IsEffectOn};
ghost use Rattle.sd_kernel.specs.MadeRows.{made_of, IsProperRow, row_fault, row_of_sum, row_of_cut};

use crate::effect::Effect;
use crate::known::Fact;
use crate::step::{BadLine, RowLine, StepCause};
use sd_base::NoMemory;
use sd_forms::{above_row, back_row, below_row, forms_of, is_int_eq, is_le};
use sd_rows::{Form, Row};
use sd_term::Bank;
use sqlite_items::at;
use std::alloc::Global;

/// The row of a line, or the first cause why there is none.
#[derive(Drop)]
pub enum LineRow {
    Row(Row),
    Bad(StepCause),
}

const MAX_MULTIPLIER: u64 = 1 << 58;

fn is_multiplier(number: u64) -> bool
    ensures { result ≡ is_multiplier number }
{
    1 <= number && number <= MAX_MULTIPLIER
}

fn are_multipliers(first: u64, second: u64) -> bool
    ensures { result ≡ (is_multiplier first && is_multiplier second) }
{
    is_multiplier(first) && is_multiplier(second)
}

fn is_absurd(row: &Row) -> bool
    ensures { result ≡ is_absurd row.now }
{
    row.parts.is_empty() && row.bound < 0
}

/// Why a row is bad: the last one has to be absurd, and each one within the bounds.
fn row_fault(row: &Row, is_last: bool) -> Option<StepCause>
    ensures { result ≡ row_fault row.now is_last }
{
    if is_last && !is_absurd(row) {
        return Some(StepCause::Row);
    }
    if !row.is_within() {
        return Some(StepCause::Wide);
    }
    None
}

/// The row of a fact: of a true one that its first side is at most the second, and of a false order that it is above
/// it.
fn fact_row(alloc: Global, terms: &Bank, forms: &[Form], fact: &Fact) -> Result<LineRow, NoMemory>
    requires fact { fact.now.term < length terms.now }
    requires sorted { IsWellSorted (tree_at terms.now fact.now.term) }
    requires forms { forms.now ≡ map (form_of terms.now) terms.now }
    ensures row { IfOk result (λ r. row_of_fact terms.now (fact_of terms.now fact.now) ≡ made_of r) }
    ensures proper { IfOk result IsProperRow }
{
    let id = fact.term;
    if is_le(terms, id) {
        let row = if fact.value {
            below_row(alloc, terms, forms, id)?
        } else {
            above_row(alloc, terms, forms, id)?
        };
        return Ok(LineRow::Row(row));
    }
    if !is_int_eq(terms, id) {
        return Ok(LineRow::Bad(StepCause::Shape));
    }
    if !fact.value {
        return Ok(LineRow::Bad(StepCause::Value));
    }
    let row = below_row(alloc, terms, forms, id)?;
    Ok(LineRow::Row(row))
}

/// The other row of a true equality: its second side is at most the first.
fn fact_back_row(
    alloc: Global,
    terms: &Bank,
    forms: &[Form],
    fact: &Fact,
) -> Result<LineRow, NoMemory>
    requires fact { fact.now.term < length terms.now }
    requires sorted { IsWellSorted (tree_at terms.now fact.now.term) }
    requires forms { forms.now ≡ map (form_of terms.now) terms.now }
    ensures row { IfOk result (λ r. row_back terms.now (fact_of terms.now fact.now) ≡ made_of r) }
    ensures proper { IfOk result IsProperRow }
{
    let id = fact.term;
    if !is_int_eq(terms, id) {
        return Ok(LineRow::Bad(StepCause::Shape));
    }
    if !fact.value {
        return Ok(LineRow::Bad(StepCause::Value));
    }
    let row = back_row(alloc, terms, forms, id)?;
    Ok(LineRow::Row(row))
}

/// A row times a multiplier, plus another row times another one.
fn sum_row(alloc: Global, rows: &[Row], a: u32, m: u64, b: u32, n: u64) -> Result<LineRow, NoMemory>
    requires { AllComputable rows.now }
    ensures row { IfOk result (λ r. row_of_sum rows.now a m b n ≡ made_of r) }
    ensures proper { IfOk result IsProperRow }
{
    let Some(first) = at(rows, a as usize) else {
        return Ok(LineRow::Bad(StepCause::Number));
    };
    let Some(second) = at(rows, b as usize) else {
        return Ok(LineRow::Bad(StepCause::Number));
    };
    if !are_multipliers(m, n) {
        return Ok(LineRow::Bad(StepCause::Row));
    }
    let row = Row::added(alloc, m, first, n, second)?;
    Ok(LineRow::Row(row))
}

/// A row divided by the greatest common divisor of its factors.
fn cut_row(alloc: Global, rows: &[Row], a: u32) -> Result<LineRow, NoMemory>
    requires { AllComputable rows.now }
    ensures row { IfOk result (λ r. row_of_cut rows.now a ≡ made_of r) }
    ensures proper { IfOk result IsProperRow }
{
    let Some(row) = at(rows, a as usize) else {
        return Ok(LineRow::Bad(StepCause::Number));
    };
    let copy = row.copy(alloc)?;
    let cut = copy.reduced(alloc)?;
    Ok(LineRow::Row(cut))
}

/// The row of a line after the rows before it.
fn row_of_line(
    alloc: Global,
    terms: &Bank,
    trail: &[Fact],
    forms: &[Form],
    rows: &[Row],
    line: RowLine,
) -> Result<LineRow, NoMemory>
    requires facts { All (λ f. f.term < length terms.now) trail.now }
    requires sorted { AllWellSorted terms.now }
    requires forms { forms.now ≡ map (form_of terms.now) terms.now }
    requires rows { AllComputable rows.now }
    ensures row { IfOk result (λ r. row_of_line terms.now (trail_of terms.now trail.now) rows.now line ≡ made_of r) }
    ensures proper { IfOk result IsProperRow }
{
    match line {
        RowLine::Fact(number) => match at(trail, number as usize) {
            Some(fact) => fact_row(alloc, terms, forms, fact),
            None => Ok(LineRow::Bad(StepCause::Number)),
        },
        RowLine::Back(number) => match at(trail, number as usize) {
            Some(fact) => fact_back_row(alloc, terms, forms, fact),
            None => Ok(LineRow::Bad(StepCause::Number)),
        },
        RowLine::Add(a, m, b, n) => sum_row(alloc, rows, a, m, b, n),
        RowLine::Cut(a) => cut_row(alloc, rows, a),
    }
}

/// What the step does that closes a branch by rows: each one follows from facts, and no integers meet the last one.
pub fn rows_effect(
    alloc: Global,
    terms: &Bank,
    trail: &[Fact],
    lines: &[RowLine],
) -> Result<Effect, NoMemory>
    requires facts { All (λ f. f.term < length terms.now) trail.now }
    requires sorted { AllWellSorted terms.now }
    ensures effect { IfOk result (IsEffectOf terms.now (trail_of terms.now trail.now) (Step.Rows lines.now)) }
    ensures fits { IfOk result (IsEffectOn terms.now) }
{
    let count = lines.len();
    if count == 0 {
        return Ok(Effect::bad(StepCause::Row));
    }
    if count > u32::MAX as usize {
        return Err(NoMemory);
    }
    let forms = forms_of(alloc, terms)?;
    let mut rows = Vec::new(alloc);
    for place in 0..count {
        let line = place as u32 + 1;
        match row_of_line(alloc, terms, trail, forms.as_slice(), &rows, lines[place])? {
            LineRow::Bad(cause) => return Ok(Effect::Bad(BadLine { line, cause })),
            LineRow::Row(row) => {
                if let Some(cause) = row_fault(&row, place + 1 == count) {
                    return Ok(Effect::Bad(BadLine { line, cause }));
                }
                rows.push(row)?;
            }
        }
    }
    Ok(Effect::Closes)
}
