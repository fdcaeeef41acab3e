ghost use Rattle.std.specs.Prelude.{◌≡◌, ℕ, ◌<◌, ◌≤◌, pos, IfOk, [], ◌∷◌, ◌++◌, length, map, take};
ghost use Rattle.sd_term.specs.Bank.{tree_at, PartsBelow};
ghost use Rattle.sd_term.specs.Distinct.{AreDistinct};
ghost use Rattle.sd_rows.specs.Forms.{IsFit, constant};
ghost use Rattle.sd_forms.specs.LinearForms.{form_at, form_by, form_of};
ghost use Rattle.sd_forms.specs.Laws.{KeepsValue};

use sd_base::NoMemory;
use sd_rows::Form;
use sd_term::{Bank, Head, Op, TermId, TermNode};
use sqlite_items::Items;
use std::alloc::Global;

/// The linear forms of all terms, by their numbers.
pub fn forms_of(alloc: Global, terms: &Bank) -> Result<Items<Form>, NoMemory>
    ensures forms { IfOk result (λ fs. fs ≡ map (form_of terms.now) terms.now) }
    ensures values { IfOk result (λ fs. (k : ℕ) → k < length terms.now
        → KeepsValue terms.now (tree_at terms.now k) (form_at fs k)) }
{
    let mut forms = Items::new(alloc);
    for number in 0..terms.len() {
        let form = next_form(alloc, terms, forms.as_slice(), TermId::new(number))?;
        forms.push(form)?;
    }
    Ok(forms)
}

/// The linear form of a term.
pub fn linear_form(alloc: Global, terms: &Bank, id: TermId) -> Result<Form, NoMemory>
    requires { id < length terms.now }
    ensures form { IfOk result (λ f. f ≡ form_of terms.now (tree_at terms.now id)) }
    ensures value { IfOk result (λ f. KeepsValue terms.now (tree_at terms.now id) f) }
{
    let forms = forms_of(alloc, terms)?;
    forms.as_slice()[id.number() as usize].copy(alloc)
}

/// The linear form of a term from those of the terms with smaller numbers. Its column is its number.
fn next_form(alloc: Global, terms: &Bank, forms: &[Form], id: TermId) -> Result<Form, NoMemory>
    requires id { id < length terms.now }
    requires distinct { AreDistinct terms.now }
    requires forms { forms.now ≡ map (form_of terms.now) (take id terms.now) }
    ensures { IfOk result (λ f. f ≡ form_of terms.now (tree_at terms.now id)) }
{
    let node = terms.node(id);
    let zero = Form::of_number(alloc, 0);
    let first = part_form(&zero, forms, node, 0);
    let second = part_form(&zero, forms, node, 1);
    form_with(alloc, &node.head, id.number(), first, second)
}

/// The form of one of a node's parts, or the form of 0 where there is no such part.
fn part_form<'a>(zero: &'a Form, forms: &'a [Form], node: &TermNode, place: usize) -> &'a Form
    requires zero { zero.now ≡ constant (pos 0) }
    requires parts { PartsBelow (length forms.now) node.now }
    ensures { result.now ≡ form_at (map (λ p. form_at forms.now p) node.now.parts) place }
{
    match node.parts.get(place) {
        Some(part) => &forms[part.number() as usize],
        None => zero,
    }
}

/// The form of a head over parts with these forms, of a term with this column.
fn form_with(
    alloc: Global,
    head: &Head,
    column: u32,
    first: &Form,
    second: &Form,
) -> Result<Form, NoMemory>
    requires first { IsFit first.now }
    requires second { IsFit second.now }
    ensures { IfOk result (λ f. f ≡ form_by head.now column (first.now ∷ second.now ∷ [])) }
{
    match head {
        Head::Num(number) => Form::of_number(alloc, i128::from(*number)).bounded(alloc, column),
        Head::Op(op) => match *op {
            Op::Add => first.plus(alloc, second)?.bounded(alloc, column),
            Op::Sub => first.less(alloc, second)?.bounded(alloc, column),
            Op::Mul => first.product(alloc, column, second),
            Op::Neg => first.scaled(alloc, -1)?.bounded(alloc, column),
            _ => Form::of_column(alloc, column),
        },
        _ => Form::of_column(alloc, column),
    }
}
