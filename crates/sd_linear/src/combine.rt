ghost use Rattle.std.specs.Prelude.{◌≡◌, ◌<◌, ◌≤◌, true, IfOk, IfErr, OnOk, filter, unsigned_abs, ◌^◌, List};
ghost use Rattle.sd_rows.specs.declared.row.Row.{Row};
ghost use Rattle.sd_rows.specs.Rows.{IsProper, is_within};
ghost use Rattle.sd_linear.specs.RowSteps.{rows_made, row_made, IsStep, IsUseful};
ghost use Rattle.sd_linear.specs.Elimination.{factor_of, is_negative, come_in, all_come_in, combined, combined_with, combinations, is_positive, is_free, eliminated, continues};
ghost use Rattle.sd_linear.specs.DerivedRows.{rows_of, IsDerivedRow, AreDerivedRows, IsDerivation, Extends, has_column};
ghost use Rattle.sd_linear.specs.Answers.{Stops};
ghost use Rattle.sd_rows.specs.Rows.{AllComputable};

use crate::elimination::{Eliminated, Stop};
use crate::list::{DerivedRow, RowList, cut, derive, join};
use crate::refutation::needed;
use crate::step::RowStep;
use sd_base::NoMemory;
use sd_rows::{Row, multipliers};
use sqlite_items::Items;
use std::alloc::Global;

/// How many rows are kept at most.
const MAX_ROWS: usize = 20000;

/// The elimination of a column from rows that all derive from the same inputs.
#[derive(Clone, Copy)]
pub(crate) struct Elimination<'a> {
    pub(crate) alloc: Global,
    pub(crate) inputs: &'a [Row],
    pub(crate) column: u32,
}

/// The factor of a column, 0 where the row has none. The columns of a row ascend, so that no part after a greater one
/// is looked at.
pub(crate) fn factor_of(row: &Row, column: u32) -> i128
    requires { IsProper row.now.parts }
    ensures { result ≡ factor_of column row.now.parts }
{
    for p in row.parts.as_slice() {
        if p.0 == column {
            return p.1;
        }
        if p.0 > column {
            return 0;
        }
    }
    0
}

/// A row comes into the list, derived by a step: divided by the greatest common divisor of its factors, with its bound
/// rounded down (Gomory 1958; Chvátal 1973). A row that says nothing is left out, and one that cannot be met ends the
/// elimination.
pub(crate) fn comes_in(
    elimination: &Elimination<'_>,
    row: Row,
    how: RowStep,
    list: &mut RowList,
    steps: &mut Items<RowStep>,
) -> Result<(), Stop>
    requires proper { IsProper row.parts }
    requires made { row_made elimination.now.inputs.now (rows_made elimination.now.inputs.now steps.old) how ≡ row }
    requires step { IsStep elimination.now.inputs.now (rows_made elimination.now.inputs.now steps.old) how }
    requires useful { IsUseful (rows_made elimination.now.inputs.now steps.old) how }
    requires derived { IsDerivation elimination.now.inputs.now steps.old list.old }

    ensures continues { OnOk result (come_in elimination.now.column row (rows_of list.old)
        ≡ continues (rows_of list.new)) }
    ensures derived { OnOk result (IsDerivation elimination.now.inputs.now steps.new list.new) }
    ensures extends { OnOk result (Extends steps.old steps.new) }
    ensures stops { IfErr result (λ stop. Stops elimination.now.inputs.now stop
        (come_in elimination.now.column row (rows_of list.old))) }
{
    if !row.is_within() {
        return Err(Stop::Ends(Eliminated::Wide(elimination.column)));
    }
    let (row, is_cut) = cut(elimination.alloc, row)?;
    if row.parts.is_empty() {
        if row.bound < 0 {
            derive(steps, how, is_cut)?;
            let kept = needed(elimination.alloc, elimination.inputs, steps.as_slice())?;
            return Err(Stop::Ends(Eliminated::Refuted(kept)));
        }
        return Ok(());
    }
    let step = derive(steps, how, is_cut)?;
    join(elimination.alloc, list, DerivedRow { row, step })?;
    if list.len() > MAX_ROWS {
        return Err(Stop::Ends(Eliminated::Many));
    }
    Ok(())
}

/// The sum of two rows in which the column falls away comes into the list (Dantzig and Eaves 1973).
fn combine(
    elimination: &Elimination<'_>,
    r: &DerivedRow,
    s: &DerivedRow,
    list: &mut RowList,
    steps: &mut Items<RowStep>,
) -> Result<(), Stop>
    requires negative { is_negative elimination.now.column r.now.row ≡ true }
    requires positive { is_positive elimination.now.column s.now.row ≡ true }
    requires first { IsDerivedRow (rows_made elimination.now.inputs.now steps.old) r.now }
    requires second { IsDerivedRow (rows_made elimination.now.inputs.now steps.old) s.now }
    requires derived { IsDerivation elimination.now.inputs.now steps.old list.old }

    ensures continues { OnOk result (come_in elimination.now.column
        (combined elimination.now.column r.now.row s.now.row) (rows_of list.old) ≡ continues (rows_of list.new)) }
    ensures derived { OnOk result (IsDerivation elimination.now.inputs.now steps.new list.new) }
    ensures extends { OnOk result (Extends steps.old steps.new) }
    ensures stops { IfErr result (λ stop. Stops elimination.now.inputs.now stop (come_in elimination.now.column
        (combined elimination.now.column r.now.row s.now.row) (rows_of list.old))) }
{
    let p = size_of_factor(&r.row, elimination.column);
    let q = size_of_factor(&s.row, elimination.column);
    let (m, n) = multipliers(p, q);
    let row = Row::added(elimination.alloc, m, &r.row, n, &s.row)?;
    comes_in(
        elimination,
        row,
        RowStep::Add(r.step, m, s.step, n),
        list,
        steps,
    )
}

/// The absolute value of a column's factor.
fn size_of_factor(row: &Row, column: u32) -> u64
    requires proper { IsProper row.now.parts }
    requires within { is_within row.now ≡ true }
    ensures value { result ≡ unsigned_abs (factor_of column row.now.parts) }
    ensures small { result ≤ 2 ^ 58 }
{
    factor_of(row, column).unsigned_abs() as u64
}

/// The combinations of a row with each row whose factor is positive come into the list, in order.
fn combine_all(
    elimination: &Elimination<'_>,
    r: &DerivedRow,
    rows: &[DerivedRow],
    list: &mut RowList,
    steps: &mut Items<RowStep>,
) -> Result<(), Stop>
    requires negative { is_negative elimination.now.column r.now.row ≡ true }
    requires first { IsDerivedRow (rows_made elimination.now.inputs.now steps.old) r.now }
    requires rows { AreDerivedRows (rows_made elimination.now.inputs.now steps.old) rows.now }
    requires derived { IsDerivation elimination.now.inputs.now steps.old list.old }

    ensures continues { OnOk result (all_come_in elimination.now.column
        (combined_with elimination.now.column r.now.row (rows_of rows.now)) (rows_of list.old)
        ≡ continues (rows_of list.new)) }
    ensures derived { OnOk result (IsDerivation elimination.now.inputs.now steps.new list.new) }
    ensures extends { OnOk result (Extends steps.old steps.new) }
    ensures stops { IfErr result (λ stop. Stops elimination.now.inputs.now stop (all_come_in elimination.now.column
        (combined_with elimination.now.column r.now.row (rows_of rows.now)) (rows_of list.old))) }
{
    for s in rows {
        if factor_of(&s.row, elimination.column) > 0 {
            combine(elimination, r, s, list, steps)?;
        }
    }
    Ok(())
}

/// The rows with the column, and those without it, as they stand.
fn partition(
    alloc: Global,
    column: u32,
    rows: &[DerivedRow],
) -> Result<(Items<DerivedRow>, RowList), NoMemory>
    requires { AllComputable (rows_of rows.now) }
    ensures with { IfOk result (λ lists. rows_of lists.0 ≡ filter (has_column column) (rows_of rows.now)) }
    ensures free { IfOk result (λ lists. rows_of lists.1 ≡ filter (is_free column) (rows_of rows.now)) }
    ensures derived { IfOk result (λ lists. (made : List Row) → AreDerivedRows made rows.now
        → AreDerivedRows made lists.0 × AreDerivedRows made lists.1) }
{
    let mut with = Items::new(alloc);
    let mut free = RowList::new(alloc);
    for r in rows {
        let copy = r.copy(alloc)?;
        if factor_of(&r.row, column) == 0 {
            free.push(alloc, copy)?;
        } else {
            with.push(copy)?;
        }
    }
    Ok((with, free))
}

/// The combinations of each row whose factor is negative come into the list, in order.
fn combine_rows(
    elimination: &Elimination<'_>,
    rows: &[DerivedRow],
    list: &mut RowList,
    steps: &mut Items<RowStep>,
) -> Result<(), Stop>
    requires rows { AreDerivedRows (rows_made elimination.now.inputs.now steps.old) rows.now }
    requires derived { IsDerivation elimination.now.inputs.now steps.old list.old }

    ensures continues { OnOk result (all_come_in elimination.now.column
        (combinations elimination.now.column (rows_of rows.now)) (rows_of list.old) ≡ continues (rows_of list.new)) }
    ensures derived { OnOk result (IsDerivation elimination.now.inputs.now steps.new list.new) }
    ensures extends { OnOk result (Extends steps.old steps.new) }
    ensures stops { IfErr result (λ stop. Stops elimination.now.inputs.now stop (all_come_in elimination.now.column
        (combinations elimination.now.column (rows_of rows.now)) (rows_of list.old))) }
{
    for r in rows {
        if factor_of(&r.row, elimination.column) < 0 {
            combine_all(elimination, r, rows, list, steps)?;
        }
    }
    Ok(())
}

/// The rows with the column, and the rows in which it has fallen away.
pub(crate) fn eliminate_column(
    alloc: Global,
    inputs: &[Row],
    column: u32,
    rows: &[DerivedRow],
    steps: &mut Items<RowStep>,
) -> Result<(Items<DerivedRow>, RowList), Stop>
    requires derived { IsDerivation inputs.now steps.old rows.now }

    ensures with { IfOk result (λ lists. rows_of lists.0 ≡ filter (has_column column) (rows_of rows.now)) }
    ensures continues { IfOk result (λ lists. eliminated column (rows_of rows.now) ≡ continues (rows_of lists.1)) }
    ensures derived { IfOk result (λ lists. IsDerivation inputs.now steps.new lists.1) }
    ensures stops { IfErr result (λ stop. Stops inputs.now stop (eliminated column (rows_of rows.now))) }
{
    let (with, mut list) = partition(alloc, column, rows)?;
    let elimination = Elimination {
        alloc,
        inputs,
        column,
    };
    combine_rows(&elimination, with.as_slice(), &mut list, steps)?;
    Ok((with, list))
}
