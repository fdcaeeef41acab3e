ghost use Rattle.std.specs.Prelude.{◌≡◌, ℕ, ◌+◌, ◌<◌, [], IfOk, IfErr, length, drop, List};
ghost use Rattle.sd_rows.specs.declared.row.Row.{Row};
ghost use Rattle.sd_rows.specs.Rows.{AllComputable};
ghost use Rattle.sd_linear.specs.Elimination.{all_come_in, continues, solved, point, elimination};
ghost use Rattle.sd_linear.specs.DerivedRows.{rows_of, IsDerivation, DescendsFrom, list_at};
ghost use Rattle.sd_linear.specs.Answers.{Stops, Fails, answer_of, Justified};

use crate::columns::columns_of;
use crate::combine::{Elimination, comes_in, eliminate_column};
use crate::list::{DerivedRow, RowList};
use crate::step::RowStep;
use crate::value::choose;
use sd_base::NoMemory;
use sd_rows::Row;
use sqlite_items::Items;
use std::alloc::{AllocError, Global};

/// What the rows come to.
#[derive(Drop)]
pub enum Eliminated {
    /// No integers meet the rows: the last of these steps derives a row with no factor and a bound below 0. Each other
    /// step is one from which a later step is made, each cut divides by more than 1, and all rows are within the
    /// bounds.
    Refuted(Items<RowStep>),
    /// The values of the rows' columns, in ascending order of the columns. They meet all rows.
    Point(Items<i128>),
    /// Given the values of the columns after it, no integer is left for this column. Other values may meet the rows.
    Gap(u32),
    /// A number went beyond its bound at this column: a factor beyond 2^58 or a bound beyond 2^66 in a combination,
    /// what a row leaves for the column beyond 128 bits, or a value beyond 2^56, all in absolute value.
    Wide(u32),
    /// More than 20000 rows with left sides of their own were left at a time.
    Many,
}

/// Why elimination ends before its last column.
#[derive(Drop)]
pub enum Stop {
    /// There is no memory, or no number for a row or a step.
    Memory,
    /// The answer, which is no point.
    Ends(Eliminated),
}

impl From<NoMemory> for Stop {
    ghost use Rattle.sd_linear.specs.declared.elimination.Stop.TheVariants.{Memory};

    ghost from_gives = { λ _ stop. stop ≡ Memory };

    fn from(_: NoMemory) -> Stop {
        Stop::Memory
    }
}

impl From<AllocError> for Stop {
    ghost use Rattle.sd_linear.specs.declared.elimination.Stop.TheVariants.{Memory};

    ghost from_gives = { λ _ stop. stop ≡ Memory };

    fn from(_: AllocError) -> Stop {
        Stop::Memory
    }
}

/// Eliminates the columns in ascending order, and then chooses a value for each, from the last to the first, as near to
/// 0 as the rows let it be (Fourier-Motzkin elimination; Dantzig and Eaves 1973).
///
/// Out of memory is the only error. More than 2^32 rows, or a step after 2^32 - 1 others, count as such.
pub fn eliminate(alloc: Global, rows: &[Row]) -> Result<Eliminated, NoMemory>
    requires { AllComputable rows.now }
    ensures answer { IfOk result (λ answer. answer_of answer ≡ elimination rows.now) }
    ensures justified { IfOk result (λ answer. Justified rows.now answer) }
{
    match values_of(alloc, rows) {
        Ok(values) => Ok(Eliminated::Point(values)),
        Err(Stop::Memory) => Err(NoMemory),
        Err(Stop::Ends(answer)) => Ok(answer),
    }
}

/// The values of all columns.
fn values_of(alloc: Global, rows: &[Row]) -> Result<Items<i128>, Stop>
    requires { AllComputable rows.now }
    ensures point { IfOk result (λ values. elimination rows.now ≡ point values) }
    ensures fails { IfErr result (λ stop. Fails rows.now stop (elimination rows.now)) }
{
    let mut steps = Items::new(alloc);
    let list = take_inputs(alloc, rows, &mut steps)?;
    let columns = columns_of(alloc, rows)?;
    let lists = eliminate_columns(alloc, rows, &columns, list, &mut steps)?;
    choose_values(alloc, rows, &columns, lists.as_slice())
}

/// The input rows as a list.
fn take_inputs(alloc: Global, inputs: &[Row], steps: &mut Items<RowStep>) -> Result<RowList, Stop>
    requires computable { AllComputable inputs.now }
    requires none { steps.old ≡ [] }
    ensures continues { IfOk result (λ list. all_come_in 0 inputs.now [] ≡ continues (rows_of list)) }
    ensures derived { IfOk result (λ list. IsDerivation inputs.now steps.new list) }
    ensures stops { IfErr result (λ stop. Stops inputs.now stop (all_come_in 0 inputs.now [])) }
{
    let elimination = Elimination {
        alloc,
        inputs,
        column: 0,
    };
    let mut list = RowList::new(alloc);
    for (i, row) in inputs.iter().enumerate() {
        if i > u32::MAX as usize {
            return Err(Stop::Memory);
        }
        let row = row.copy(alloc)?;
        comes_in(
            &elimination,
            row,
            RowStep::Input(i as u32),
            &mut list,
            steps,
        )?;
    }
    Ok(list)
}

/// The list at a place.
fn list_at(lists: &[Items<DerivedRow>], place: usize) -> &[DerivedRow]
    requires { place < length lists.now }
    ensures { result.now ≡ list_at lists.now place }
{
    lists[place].as_slice()
}

/// What stands after a place.
fn after<T>(items: &[T], place: usize) -> &[T]
    requires { place < length items.now }
    ensures { result.now ≡ drop (place + 1) items.now }
{
    items.split_at(place + 1).1
}

/// For each column the rows with it that are left once the columns before it have fallen away.
fn eliminate_columns(
    alloc: Global,
    inputs: &[Row],
    columns: &[u32],
    first: RowList,
    steps: &mut Items<RowStep>,
) -> Result<Items<Items<DerivedRow>>, Stop>
    requires derived { IsDerivation inputs.now steps.old first }
    ensures descends { IfOk result (λ lists. DescendsFrom columns.now (rows_of first) lists) }
    ensures fails { IfErr result (λ stop. Fails inputs.now stop (solved columns.now (rows_of first))) }
{
    let mut lists = Items::new(alloc);
    let mut rows = first;
    for column in columns {
        let (with, later) = eliminate_column(alloc, inputs, *column, rows.as_slice(), steps)?;
        lists.push(with)?;
        rows = later;
    }
    Ok(lists)
}

/// A value for each column, from the last to the first.
fn choose_values(
    alloc: Global,
    inputs: &[Row],
    columns: &[u32],
    lists: &[Items<DerivedRow>],
) -> Result<Items<i128>, Stop>
    requires count { length lists.now ≡ length columns.now }
    requires computable { (i : ℕ) → i < length columns.now → AllComputable (rows_of (list_at lists.now i)) }
    ensures point { IfOk result (λ values. (first : List Row) → DescendsFrom columns.now first lists.now
        → solved columns.now first ≡ point values) }
    ensures fails { IfErr result (λ stop. (first : List Row) → DescendsFrom columns.now first lists.now
        → Fails inputs.now stop (solved columns.now first)) }
{
    let mut values = Items::from_vec(vec![in alloc; 0; columns.len()]?);
    for i in (0..columns.len()).rev() {
        let later_columns = after(columns, i);
        let later_values = after(values.as_slice(), i);
        match choose(columns[i], later_columns, later_values, list_at(lists, i)) {
            Ok(value) => values.set(i, value),
            Err(answer) => return Err(Stop::Ends(answer)),
        }
    }
    Ok(values)
}
