ghost use Rattle.std.specs.Prelude.{◌≡◌, ◌≢◌, pos, [], neg_ℤ, ◌≤◌, ◌<◌, ◌^◌, true, unsigned_abs, List, ◌∷◌, IfOk, IfErr, ◌*ℤ◌, ◌-ℤ◌, if◌then◌else◌};
ghost use Rattle.sd_rows.specs.Rows.{IsProper, is_within, AllComputable};
ghost use Rattle.sd_linear.specs.Elimination.{fits, value_of, left_of, factor_of, limited, range_in, nearest, from, up_to, in_range, point};
ghost use Rattle.sd_linear.specs.DerivedRows.{rows_of};
ghost use Rattle.sd_linear.specs.Answers.{answer_of, Justified, IsNoPoint};
ghost use Rattle.sd_rows.specs.declared.row.Row.{Row};
ghost use Rattle.sd_linear.specs.Values.{AllNear};

use crate::combine::factor_of;
use crate::elimination::Eliminated;
use crate::list::DerivedRow;
use sd_rows::{Row, quotient_down};

/// The value of a column, 0 where it has none.
fn value_of(columns: &[u32], values: &[i128], column: u32) -> i128
    ensures { result ≡ value_of columns.now values.now column }
{
    for i in 0..columns.len() {
        if i >= values.len() {
            return 0;
        }
        if columns[i] == column {
            return values[i];
        }
    }
    0
}

/// A factor times the value of its column.
fn product(factor: i128, columns: &[u32], values: &[i128], column: u32) -> i128
    requires factor { unsigned_abs factor ≤ 2 ^ 58 }
    requires values { AllNear values.now }
    ensures { result ≡ factor *ℤ value_of columns.now values.now column }
{
    factor * value_of(columns, values, column)
}

/// The difference, if it and its negative are 128-bit numbers.
fn difference(a: i128, b: i128) -> Option<i128>
    ensures { result ≡ (if fits (a -ℤ b) then Some (a -ℤ b) else None) }
{
    match a.checked_sub(b) {
        Some(d) if d != i128::MIN => Some(d),
        _ => None,
    }
}

/// What is left of the row's bound for the column, given the values of the columns after it.
fn left_of(column: u32, columns: &[u32], values: &[i128], row: &Row) -> Option<i128>
    requires within { is_within row.now ≡ true }
    requires values { AllNear values.now }
    ensures { result ≡ left_of column (value_of columns.now values.now) row.now.bound row.now.parts }
{
    let mut left = row.bound;
    for p in row.parts.as_slice() {
        if p.0 != column {
            left = difference(left, product(p.1, columns, values, p.0))?;
        }
    }
    Some(left)
}

/// From the first to the second, where they are there.
type Range = (Option<i128>, Option<i128>);

fn from(z: i128, range: Range) -> Range
    ensures { result ≡ from z range }
{
    match range {
        (None, high) => (Some(z), high),
        (Some(low), high) => (Some(low.max(z)), high),
    }
}

fn up_to(z: i128, range: Range) -> Range
    ensures { result ≡ up_to z range }
{
    match range {
        (low, None) => (low, Some(z)),
        (low, Some(high)) => (low, Some(high.min(z))),
    }
}

/// The values whose product with the factor is at most what is left.
fn limited(factor: i128, left: i128, range: Range) -> Range
    requires not_zero { factor ≢ pos 0 }
    requires small { unsigned_abs factor ≤ 2 ^ 58 }
    requires fits { fits left ≡ true }
    ensures { result ≡ limited factor left range }
{
    let quotient = quotient_down(left, factor.unsigned_abs() as u64);
    if factor > 0 {
        up_to(quotient, range)
    } else {
        from(negative(quotient), range)
    }
}

fn negative(z: i128) -> i128
    requires { fits z ≡ true }
    ensures { result ≡ neg_ℤ z }
{
    -z
}

/// The number of the range that is nearest to 0, if there is one.
fn nearest(range: Range) -> Option<i128>
    ensures { result ≡ nearest range }
{
    match range {
        (None, None) => Some(0),
        (Some(low), None) => Some(low.max(0)),
        (None, Some(high)) => Some(high.min(0)),
        (Some(low), Some(high)) => {
            if high < low {
                None
            } else {
                Some(low.max(high.min(0)))
            }
        }
    }
}

/// The range that the rows with the column give for its value.
fn range_in(column: u32, columns: &[u32], values: &[i128], rows: &[DerivedRow]) -> Option<Range>
    requires rows { AllComputable (rows_of rows.now) }
    requires values { AllNear values.now }
    ensures { result ≡ range_in column (value_of columns.now values.now) (rows_of rows.now) (None, None) }
{
    let mut range = (None, None);
    for r in rows {
        range = narrowed(column, columns, values, &r.row, range)?;
    }
    Some(range)
}

/// The part of the range that a row leaves.
fn narrowed(column: u32, columns: &[u32], values: &[i128], row: &Row, range: Range) -> Option<Range>
    requires proper { IsProper row.now.parts }
    requires within { is_within row.now ≡ true }
    requires values { AllNear values.now }
    ensures { result ≡ range_in column (value_of columns.now values.now) (row.now ∷ []) range }
{
    let factor = factor_of(row, column);
    if factor == 0 {
        return Some(range);
    }
    let left = left_of(column, columns, values, row)?;
    Some(limited(factor, left, range))
}

/// The greatest absolute value that is chosen.
const MAX_VALUE: u128 = 1 << 56;

/// The value for a column, given those of the columns after it.
pub(crate) fn choose(
    column: u32,
    columns: &[u32],
    values: &[i128],
    rows: &[DerivedRow],
) -> Result<i128, Eliminated>
    requires rows { AllComputable (rows_of rows.now) }
    requires values { AllNear values.now }
    ensures chosen { IfOk result (λ v. in_range column values.now (range_in column (value_of columns.now values.now)
        (rows_of rows.now) (None, None)) ≡ point (v ∷ values.now)) }
    ensures near { IfOk result (λ v. unsigned_abs v ≤ 2 ^ 56) }
    ensures ends { IfErr result (λ e. answer_of e
        ≡ in_range column values.now (range_in column (value_of columns.now values.now) (rows_of rows.now)
        (None, None))) }
    ensures justified { IfErr result (λ e. (inputs : List Row) → Justified inputs e) }
    ensures no_point { IfErr result (λ e. IsNoPoint e) }
{
    match range_in(column, columns, values, rows) {
        None => Err(Eliminated::Wide(column)),
        Some(range) => match nearest(range) {
            None => Err(Eliminated::Gap(column)),
            Some(value) => {
                if value.unsigned_abs() <= MAX_VALUE {
                    Ok(value)
                } else {
                    Err(Eliminated::Wide(column))
                }
            }
        },
    }
}
