ghost use Rattle.std.specs.Prelude.{◌≡◌, ◌<◌, IfSome, IfNone, length, true, false};
ghost use Rattle.sd_term.specs.Bank.{tree_at};
ghost use Rattle.sd_term.specs.Sorts.{sort_of, AllWellSorted};
ghost use Rattle.sd_forms.specs.FactRows.{is_int_sort, is_int_eq};
ghost use Rattle.sd_cube.specs.Required.{OrdersHold};
ghost use Rattle.sd_euf.specs.Table.{IsLeftTable};
ghost use Rattle.sd_euf.specs.Judged.{IsPair, AtEquality, is_false_standing, Judges, OrderHolds};

use crate::find::{Pair, Standing, pair_of, standing_of};
use crate::judged::Judged;
use crate::table::LeftTable;
use sd_kernel::{NodeLine, Step};
use sd_term::{Bank, Op, TermId};

/// Whether a term is an integer.
fn is_int(terms: &Bank, id: TermId) -> bool
    requires { id < length terms.now }
    ensures { result ≡ is_int_sort (sort_of (tree_at terms.now id)) }
{
    sd_kernel::is_int(terms.sort(id))
}

/// The sides of an equality of integers.
fn int_sides(terms: &Bank, id: TermId) -> Option<Pair>
    requires id { id < length terms.now }
    requires sorted { AllWellSorted terms.now }
    ensures pair { IfSome result (λ p. IsPair terms.now Op.Eq (tree_at terms.now id) p) }
    ensures int { IfSome result (λ p. is_int_sort (sort_of (tree_at terms.now p.left)) ≡ true) }
    ensures none { IfNone result (is_int_eq (tree_at terms.now id) ≡ false) }
{
    let Some(pair) = pair_of(terms, Op::Eq, id) else {
        return None;
    };
    if is_int(terms, pair.left) {
        return Some(pair);
    }
    None
}

/// A new order of two terms.
fn le_step(left: TermId, right: TermId) -> Step
    ensures { result ≡ Step.Term (NodeLine.Le left right) }
{
    Step::Term(NodeLine::Le(left.number(), right.number()))
}

/// The second order is false where the equality is and the first order isn't.
fn order_step(eq: TermId, order: u32, back: u32) -> Step
    ensures { result ≡ Step.Order eq order back }
{
    Step::Order(eq.number(), order, back)
}

/// Whether a term is there and false.
fn is_false(standing: Standing) -> bool
    ensures { result ≡ is_false_standing standing }
{
    match standing {
        Standing::Known(_, value) => !value,
        _ => false,
    }
}

/// Whether a false equality of integers with these sides has a false order. An order without a value is asked for
/// before one without a number.
fn judged_sides(
    terms: &Bank,
    table: &LeftTable,
    values: &[Option<bool>],
    id: TermId,
    sides: Pair,
) -> Judged
    requires table { IsLeftTable terms.now table.now (length terms.now) }
    requires at { AtEquality terms.now values.now id sides }
    requires long { length values.now ≡ length terms.now }
    ensures { Judges terms.now values.now (OrderHolds terms.now (tree_at terms.now id)) result }
{
    let order = standing_of(terms, table, values, Op::Le, sides.left, sides.right);
    if is_false(order) {
        return Judged::Holds;
    }
    let back = standing_of(terms, table, values, Op::Le, sides.right, sides.left);
    if is_false(back) {
        return Judged::Holds;
    }
    match order {
        Standing::Unknown(first) => Judged::Missing(Step::Split(first)),
        Standing::Known(first, _) => match back {
            Standing::Unknown(second) => Judged::Missing(Step::Split(second)),
            Standing::Known(second, _) => Judged::Broken(order_step(id, first, second)),
            Standing::Absent => Judged::Missing(le_step(sides.right, sides.left)),
        },
        Standing::Absent => match back {
            Standing::Unknown(second) => Judged::Missing(Step::Split(second)),
            _ => Judged::Missing(le_step(sides.left, sides.right)),
        },
    }
}

/// Whether a false equality of integers has a false order.
fn judged_equality(terms: &Bank, table: &LeftTable, values: &[Option<bool>], id: TermId) -> Judged
    requires table { IsLeftTable terms.now table.now (length terms.now) }
    requires id { id < length terms.now }
    requires sorted { AllWellSorted terms.now }
    requires long { length values.now ≡ length terms.now }
    ensures { Judges terms.now values.now (OrderHolds terms.now (tree_at terms.now id)) result }
{
    let Some(sides) = int_sides(terms, id) else {
        return Judged::Holds;
    };
    let Some(value) = values[id.number() as usize] else {
        return Judged::Holds;
    };
    if value {
        return Judged::Holds;
    }
    judged_sides(terms, table, values, id, sides)
}

/// Whether each false equality of integers has a false order. The first one whose orders are both true is answered
/// before what is missing.
pub fn judged_orders(terms: &Bank, table: &LeftTable, values: &[Option<bool>]) -> Judged
    requires table { IsLeftTable terms.now table.now (length terms.now) }
    requires sorted { AllWellSorted terms.now }
    requires long { length values.now ≡ length terms.now }
    ensures { Judges terms.now values.now (OrdersHold terms.now) result }
{
    let mut missing = None;
    for i in 0..terms.len() as usize {
        let step = match judged_equality(terms, table, values, TermId::new(i as u32)) {
            Judged::Holds => continue,
            Judged::Broken(step) => return Judged::Broken(step),
            Judged::Missing(step) => step,
        };
        missing = Some(step);
    }
    match missing {
        Some(step) => Judged::Missing(step),
        None => Judged::Holds,
    }
}
