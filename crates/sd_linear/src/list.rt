ghost use Rattle.std.specs.Prelude.{◌≡◌, ◌+◌, ◌<◌, ◌++◌, true, false, IfOk, OnOk, length, position, int_lt, slice_index_or, slice_set, List, [], ◌∷◌};
ghost use Rattle.sd_rows.specs.declared.row.Row.{Row};
ghost use Rattle.sd_rows.specs.Rows.{IsProper, is_within};
ghost use Rattle.sd_rows.specs.Divisors.{greatest_divisor};
ghost use Rattle.sd_rows.specs.RowOps.{reduced, sizes};
ghost use Rattle.sd_linear.specs.Elimination.{joined, same_parts};
ghost use Rattle.sd_linear.specs.DerivedRows.{rows_of, default_row, IsDerivedRow, AreDerivedRows, with_cut};

use crate::step::RowStep;
use sd_base::NoMemory;
use sd_rows::{Row, divisor_of};
use sqlite_items::Items;
use std::alloc::Global;
use std::collections::HashMap;
use std::marker::Model;

/// A row of a list, with the number of the step that derives it.
#[derive(Drop)]
pub struct DerivedRow {
    pub row: Row,
    pub step: u32,
}

impl DerivedRow {
    pub(crate) fn copy(&self, alloc: Global) -> Result<DerivedRow, NoMemory>
        ensures { IfOk result (λ copy. copy ≡ self.now) }
    {
        let parts = Items::from_slice(alloc, self.row.parts.as_slice())?;
        let row = Row {
            parts,
            bound: self.row.bound,
        };
        Ok(DerivedRow {
            row,
            step: self.step,
        })
    }
}

/// Rows in order, with a table of the first places of their left sides.
#[derive(Drop)]
pub struct RowList {
    rows: Vec<DerivedRow>,
    places: HashMap<Vec<(u32, i128)>, usize>,
}

impl Model for RowList {
    ghost use Rattle.std.specs.Prelude.{List};
    ghost use Rattle.sd_linear.specs.declared.list.DerivedRow.{DerivedRow};
    ghost use Rattle.sd_linear.specs.FirstPlaces.{HasFirstPlaces};

    ghost Value = { List DerivedRow };

    ghost view = { λ list. list.rows.items };

    ghost invariant = { λ list. HasFirstPlaces list.places list.rows.items };
}

impl RowList {
    pub(crate) fn new(alloc: Global) -> RowList
        ensures { result ≡ [] }
    {
        RowList {
            rows: Vec::new(alloc),
            places: HashMap::new(alloc),
        }
    }

    pub(crate) fn as_slice(&self) -> &[DerivedRow]
        ensures { result.now ≡ self.now }
    {
        self.rows.as_slice()
    }

    pub(crate) fn len(&self) -> usize
        ensures { result ≡ length self.now }
    {
        self.rows.len()
    }

    /// The first row with this left side.
    fn place_of(&self, parts: &[(u32, i128)]) -> Option<usize>
        ensures { result ≡ position (λ h. same_parts parts.now h.row.parts) self.now }
    {
        self.places.get(parts).copied()
    }

    /// Puts a row last. Its room is made first, so that no place is entered for a row that does not come.
    pub(crate) fn push(&mut self, alloc: Global, derived: DerivedRow) -> Result<(), NoMemory>
        ensures { OnOk result (self.new ≡ self.old ++ derived ∷ []) }
    {
        self.rows.reserve(1)?;
        if self.place_of(derived.row.parts.as_slice()).is_none() {
            let left = Vec::from_slice(alloc, derived.row.parts.as_slice())?;
            self.places.insert(left, self.rows.len())?;
        }
        self.rows.push(derived)?;
        Ok(())
    }

    /// Puts a row in the place of one with the same left side.
    fn set(&mut self, place: usize, derived: DerivedRow)
        requires within { place < length self.old }
        requires same { same_parts derived.row.parts (slice_index_or self.old place default_row).row.parts ≡ true }
        ensures { self.new ≡ slice_set self.old place derived }
    {
        self.rows[place] = derived;
    }
}

/// Whether the bound is less than that of the row at a place.
fn is_less(list: &[DerivedRow], place: usize, bound: i128) -> bool
    requires { place < length list.now }
    ensures { result ≡ int_lt bound (slice_index_or list.now place default_row).row.bound }
{
    bound < list[place].row.bound
}

/// The lesser bound takes the place of the row with the same left side, or the row continues last.
pub(crate) fn join(alloc: Global, list: &mut RowList, derived: DerivedRow) -> Result<(), NoMemory>
    ensures rows { OnOk result (rows_of list.new ≡ joined derived.row (rows_of list.old)) }
    ensures derived { OnOk result ((made : List Row) → IsDerivedRow made derived → AreDerivedRows made list.old
        → AreDerivedRows made list.new) }
{
    match list.place_of(derived.row.parts.as_slice()) {
        Some(place) => {
            if is_less(list.as_slice(), place, derived.row.bound) {
                list.set(place, derived);
            }
        }
        None => list.push(alloc, derived)?,
    }
    Ok(())
}

/// Adds the step, and the cut of its row where that is another row, and gives the number of the last.
pub(crate) fn derive(
    steps: &mut Items<RowStep>,
    how: RowStep,
    is_cut: bool,
) -> Result<u32, NoMemory>
    ensures number { IfOk result (λ n. n + 1 ≡ length steps.new) }
    ensures steps { OnOk result (steps.new ≡ steps.old ++ with_cut how (length steps.old) is_cut) }
{
    let number = steps.len();
    if number >= u32::MAX as usize {
        return Err(NoMemory);
    }
    steps.push(how)?;
    if is_cut {
        steps.push(RowStep::Cut(number as u32))?;
        return Ok(number as u32 + 1);
    }
    Ok(number as u32)
}

/// The reduced row, and whether it is another than the row.
pub(crate) fn cut(alloc: Global, row: Row) -> Result<(Row, bool), NoMemory>
    requires proper { IsProper row.parts }
    requires within { is_within row ≡ true }
    ensures row { IfOk result (λ t. t.0 ≡ reduced row) }
    ensures same { IfOk result (λ t. t.1 ≡ false → row ≡ reduced row) }
    ensures cut { IfOk result (λ t. t.1 ≡ true → 1 < greatest_divisor (sizes row.parts)) }
{
    if divisor_of(row.parts.as_slice()) == 1 {
        return Ok((row, false));
    }
    let row = row.reduced(alloc)?;
    Ok((row, true))
}
