ghost use Rattle.std.specs.Prelude.{◌≡◌, ◌<◌, ◌≤◌, ◌^◌, unsigned_abs, true, IfOk, length, map};
ghost use Rattle.sd_term.specs.Bank.{tree_at};
ghost use Rattle.sd_term.specs.Tree.{head_of};
ghost use Rattle.sd_term.specs.Sorts.{sort_of, IsWellSorted};
ghost use Rattle.sd_rows.specs.Rows.{IsProper};
ghost use Rattle.sd_rows.specs.Forms.{IsFit, less};
ghost use Rattle.sd_forms.specs.LinearForms.{form_of};
ghost use Rattle.sd_forms.specs.FactRows.{part_at, is_int_sort, is_eq_head, is_le, is_int_eq, is_comparison, below_row, back_row, above_row, rows_of, AllProper};

use sd_base::{NoMemory, Sort};
use sd_rows::{Form, Row};
use sd_term::{Bank, Head, Op, TermId};
use sqlite_items::Items;
use std::alloc::Global;

/// Whether a term is an order of integers.
pub fn is_le(terms: &Bank, id: TermId) -> bool
    requires { id < length terms.now }
    ensures { result ≡ is_le (tree_at terms.now id) }
{
    match &terms.node(id).head {
        Head::Op(op) => match *op {
            Op::Le => true,
            _ => false,
        },
        _ => false,
    }
}

/// Whether a term is an equality of integers.
pub fn is_int_eq(terms: &Bank, id: TermId) -> bool
    requires { id < length terms.now }
    ensures { result ≡ is_int_eq (tree_at terms.now id) }
{
    is_eq(terms, id) && first_is_int(terms, id)
}

fn is_eq(terms: &Bank, id: TermId) -> bool
    requires { id < length terms.now }
    ensures { result ≡ is_eq_head (head_of (tree_at terms.now id)) }
{
    match &terms.node(id).head {
        Head::Op(op) => match *op {
            Op::Eq => true,
            _ => false,
        },
        _ => false,
    }
}

fn first_is_int(terms: &Bank, id: TermId) -> bool
    requires { id < length terms.now }
    ensures { result ≡ is_int_sort (sort_of (part_at (tree_at terms.now id) 0)) }
{
    match terms.node(id).parts.get(0) {
        Some(part) => match terms.sort(*part) {
            Sort::Int => true,
            _ => false,
        },
        None => false,
    }
}

/// The row of a true order or equality: the first part is at most the second.
pub fn below_row(alloc: Global, terms: &Bank, forms: &[Form], id: TermId) -> Result<Row, NoMemory>
    requires id { id < length terms.now }
    requires sorted { IsWellSorted (tree_at terms.now id) }
    requires compares { is_comparison (tree_at terms.now id) ≡ true }
    requires forms { forms.now ≡ map (form_of terms.now) terms.now }
    ensures row { IfOk result (λ r. r ≡ below_row terms.now (tree_at terms.now id)) }
    ensures proper { IfOk result (λ r. IsProper r.parts) }
{
    let form = difference(alloc, terms, forms, id, 0, 1)?;
    Ok(form.at_most(0))
}

/// The other row of a true equality: the second part is at most the first.
pub fn back_row(alloc: Global, terms: &Bank, forms: &[Form], id: TermId) -> Result<Row, NoMemory>
    requires id { id < length terms.now }
    requires sorted { IsWellSorted (tree_at terms.now id) }
    requires compares { is_comparison (tree_at terms.now id) ≡ true }
    requires forms { forms.now ≡ map (form_of terms.now) terms.now }
    ensures row { IfOk result (λ r. r ≡ back_row terms.now (tree_at terms.now id)) }
    ensures proper { IfOk result (λ r. IsProper r.parts) }
{
    let form = difference(alloc, terms, forms, id, 1, 0)?;
    Ok(form.at_most(0))
}

/// The row of a false order: the second part is less than the first.
pub fn above_row(alloc: Global, terms: &Bank, forms: &[Form], id: TermId) -> Result<Row, NoMemory>
    requires id { id < length terms.now }
    requires sorted { IsWellSorted (tree_at terms.now id) }
    requires compares { is_comparison (tree_at terms.now id) ≡ true }
    requires forms { forms.now ≡ map (form_of terms.now) terms.now }
    ensures row { IfOk result (λ r. r ≡ above_row terms.now (tree_at terms.now id)) }
    ensures proper { IfOk result (λ r. IsProper r.parts) }
{
    let form = difference(alloc, terms, forms, id, 1, 0)?;
    Ok(form.at_most(-1))
}

/// The rows of a term with this truth value: one of an order, two of a true equality of integers, and else none.
pub fn rows_of(
    alloc: Global,
    terms: &Bank,
    forms: &[Form],
    id: TermId,
    value: bool,
) -> Result<Items<Row>, NoMemory>
    requires id { id < length terms.now }
    requires sorted { IsWellSorted (tree_at terms.now id) }
    requires forms { forms.now ≡ map (form_of terms.now) terms.now }
    ensures rows { IfOk result (λ rs. rs ≡ rows_of terms.now (tree_at terms.now id) value) }
    ensures proper { IfOk result AllProper }
{
    let mut rows = Items::new(alloc);
    if is_le(terms, id) {
        let row = if value {
            below_row(alloc, terms, forms, id)?
        } else {
            above_row(alloc, terms, forms, id)?
        };
        rows.push(row)?;
    } else if value && is_int_eq(terms, id) {
        rows.push(below_row(alloc, terms, forms, id)?)?;
        rows.push(back_row(alloc, terms, forms, id)?)?;
    }
    Ok(rows)
}

/// The form of one part of a comparison, from which that of the other is taken away.
fn difference(
    alloc: Global,
    terms: &Bank,
    forms: &[Form],
    id: TermId,
    of: usize,
    from: usize,
) -> Result<Form, NoMemory>
    requires id { id < length terms.now }
    requires sorted { IsWellSorted (tree_at terms.now id) }
    requires compares { is_comparison (tree_at terms.now id) ≡ true }
    requires forms { forms.now ≡ map (form_of terms.now) terms.now }
    requires of { of < 2 }
    requires from { from < 2 }
    ensures form { IfOk result (λ f. f
        ≡ less (form_of terms.now (part_at (tree_at terms.now id) of)) (form_of terms.now (part_at
        (tree_at terms.now id) from))) }
    ensures proper { IfOk result (λ f. IsProper f.parts) }
    ensures near { IfOk result (λ f. unsigned_abs f.constant ≤ 2 ^ 67) }
{
    let first = compared_form(terms, forms, id, of);
    let second = compared_form(terms, forms, id, from);
    first.less(alloc, second)
}

/// The form of a part of a comparison.
fn compared_form<'a>(terms: &Bank, forms: &'a [Form], id: TermId, place: usize) -> &'a Form
    requires id { id < length terms.now }
    requires sorted { IsWellSorted (tree_at terms.now id) }
    requires compares { is_comparison (tree_at terms.now id) ≡ true }
    requires forms { forms.now ≡ map (form_of terms.now) terms.now }
    requires place { place < 2 }
    ensures form { result.now ≡ form_of terms.now (part_at (tree_at terms.now id) place) }
    ensures fit { IsFit result.now }
{
    let parts = terms.node(id).parts.as_slice();
    let part = parts[place];
    &forms[part.number() as usize]
}
