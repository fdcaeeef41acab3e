ghost use Rattle.std.specs.Prelude.{◌≡◌, ◌<◌, ◌^◌, true, All, IfOk, OnOk, Some, length, map, if◌then◌else◌};
ghost use Rattle.sd_kernel.specs.Facts.{trail_of};
ghost use Rattle.sd_kernel.specs.Known.{Trail, known};
ghost use Rattle.sd_term.specs.Bank.{tree_at};
ghost use Rattle.sd_term.specs.Sorts.{AllWellSorted, IsWellSorted};
ghost use Rattle.sd_rows.specs.Rows.{IsProper};
ghost use Rattle.sd_forms.specs.LinearForms.{form_of};
ghost use Rattle.sd_forms.specs.FactRows.{is_le, below_row, above_row};
ghost use Rattle.sd_arith.specs.Places.{HasPlaces, IsPlace};
ghost use Rattle.sd_arith.specs.Gathered.{IsGathered, Adds, AddsRows, rows_of_terms};

use crate::places::first_places;
use sd_base::NoMemory;
use sd_forms::{above_row, back_row, below_row, forms_of, is_int_eq, is_le};
use sd_kernel::{Fact, RowLine};
use sd_rows::{Form, Row};
use sd_term::{Bank, TermId};
use sqlite_items::Items;
use std::alloc::Global;

/// Rows within the bounds, each with the line that gives it.
#[derive(Drop)]
pub(crate) struct Gathered {
    pub rows: Items<Row>,
    pub lines: Items<RowLine>,
}

impl Gathered {
    /// Takes a row with its line, unless the row is beyond the bounds.
    fn add(&mut self, row: Row, line: RowLine) -> Result<(), NoMemory>
        ensures { OnOk result (Adds line row self.old self.new) }
    {
        if !row.is_within() {
            return Ok(());
        }
        self.rows.push(row)?;
        self.lines.push(line)?;
        Ok(())
    }
}

/// A term with a known truth value.
#[derive(Clone, Copy)]
struct KnownTerm {
    id: TermId,
    value: bool,
}

/// The row of an order with this truth value.
fn order_row(
    alloc: Global,
    terms: &Bank,
    forms: &[Form],
    id: TermId,
    value: bool,
) -> Result<Row, NoMemory>
    requires id { id < length terms.now }
    requires sorted { IsWellSorted (tree_at terms.now id) }
    requires order { is_le (tree_at terms.now id) ≡ true }
    requires forms { forms.now ≡ map (form_of terms.now) terms.now }
    ensures row { IfOk result (λ r. r
        ≡ (if value then below_row terms.now (tree_at terms.now id) else above_row terms.now (tree_at terms.now id))) }
    ensures proper { IfOk result (λ r. IsProper r.parts) }
{
    if value {
        below_row(alloc, terms, forms, id)
    } else {
        above_row(alloc, terms, forms, id)
    }
}

/// Takes the rows of a term with this truth value, which is that of the fact at this place.
fn add_rows(
    alloc: Global,
    terms: &Bank,
    forms: &[Form],
    term: KnownTerm,
    place: u32,
    gathered: &mut Gathered,
) -> Result<(), NoMemory>
    requires id { term.id < length terms.now }
    requires sorted { IsWellSorted (tree_at terms.now term.id) }
    requires forms { forms.now ≡ map (form_of terms.now) terms.now }
    ensures { OnOk result ((trail : Trail) → IsPlace trail (tree_at terms.now term.id) term.value place
        → AddsRows terms.now trail (tree_at terms.now term.id) term.value gathered.old gathered.new) }
{
    let KnownTerm { id, value } = term;
    if is_le(terms, id) {
        let row = order_row(alloc, terms, forms, id, value)?;
        gathered.add(row, RowLine::Fact(place))?;
        return Ok(());
    }
    if value && is_int_eq(terms, id) {
        let below = below_row(alloc, terms, forms, id)?;
        let back = back_row(alloc, terms, forms, id)?;
        gathered.add(below, RowLine::Fact(place))?;
        gathered.add(back, RowLine::Back(place))?;
    }
    Ok(())
}

/// Takes the rows of a term with a known truth value.
fn add_term(
    alloc: Global,
    terms: &Bank,
    forms: &[Form],
    places: &[Option<u32>],
    term: KnownTerm,
    gathered: &mut Gathered,
) -> Result<(), NoMemory>
    requires id { term.id < length terms.now }
    requires sorted { IsWellSorted (tree_at terms.now term.id) }
    requires forms { forms.now ≡ map (form_of terms.now) terms.now }
    requires places { length places.now ≡ length terms.now }
    ensures { OnOk result ((trail : Trail) → HasPlaces terms.now 0 trail places.now
        → known trail (tree_at terms.now term.id) ≡ Some term.value
        → AddsRows terms.now trail (tree_at terms.now term.id) term.value gathered.old gathered.new) }
{
    match places[term.id.number() as usize] {
        Some(place) => add_rows(alloc, terms, forms, term, place, gathered),
        None => Ok(()),
    }
}

/// The rows of a branch, in the order of their terms.
pub(crate) fn gather(
    alloc: Global,
    terms: &Bank,
    trail: &[Fact],
    values: &[Option<bool>],
) -> Result<Gathered, NoMemory>
    requires below { All (λ f. f.term < length terms.now) trail.now }
    requires sorted { AllWellSorted terms.now }
    requires values { values.now ≡ map (λ t. known (trail_of terms.now trail.now) t) terms.now }
    requires short { length trail.now < 2 ^ 32 }
    ensures { IfOk result (λ g. IsGathered terms.now (trail_of terms.now trail.now)
        (rows_of_terms terms.now (trail_of terms.now trail.now) terms.now) g) }
{
    let forms = forms_of(alloc, terms)?;
    let places = first_places(alloc, terms, trail)?;
    let mut gathered = Gathered {
        rows: Items::new(alloc),
        lines: Items::new(alloc),
    };
    for n in 0..terms.len() as usize {
        if let Some(value) = values[n] {
            let id = TermId::new(n as u32);
            add_term(
                alloc,
                terms,
                forms.as_slice(),
                places.as_slice(),
                KnownTerm { id, value },
                &mut gathered,
            )?;
        }
    }
    Ok(gathered)
}
