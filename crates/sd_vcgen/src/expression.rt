//! Expressions as terms, over what the spots of a body hold.
ghost use Rattle.std.specs.Prelude.{◌≡◌, ◌<◌, true, false, [], ◌∷◌, IfOk, OnOk, All, length, map};
ghost use Rattle.std.specs.Option.{option_copied};
ghost use Rattle.sd_core.specs.Formed.{declared_as};
ghost use Rattle.sd_term.specs.declared.node.Head.TheVariants as head;
ghost use Rattle.sd_term.specs.Tree.{leaf, tree};
ghost use Rattle.sd_term.specs.Bank.{tree_at};
ghost use Rattle.sd_term.specs.Build.{Extends};
ghost use Rattle.sd_vcgen.specs.Body.{result_of, op_term, term_in};
ghost use Rattle.sd_vcgen.specs.Numbers.{Denotes, DenoteAll, AreWithin, store_of};

use crate::spots::{Spots, put_spot, put_truth};
use sd_base::{CloneOf, Name, NoMemory, Sort};
use sd_core::{CoreExpr, CoreOp, Function};
use sd_term::{Bank, Head, Op, TermId};
use sqlite_items::Items;

/// The term of an expression.
#[cycle(expression)]
pub(crate) fn put_expression(
    bank: &mut Bank,
    functions: &[Function],
    spots: &Spots,
    expression: &CoreExpr,
) -> Result<TermId, NoMemory>
    requires { AreWithin bank.old spots.now }
    ensures term { IfOk result (λ id. Denotes bank.new id
        (term_in functions.now (store_of bank.old spots.now) expression.now)) }
    ensures spots { OnOk result (AreWithin bank.new spots.now) }
    ensures kept { OnOk result (Extends bank.old bank.new) }
{
    match expression {
        CoreExpr::Num(number) => bank.put_tree(Head::Num(*number), &[]),
        CoreExpr::Truth(value) => put_truth(bank, *value),
        CoreExpr::At(spot) => put_spot(bank, spots, *spot),
        CoreExpr::Const(name) => put_constant(bank, functions, name),
        CoreExpr::Apply(name, args) => {
            let args = put_expressions(bank, functions, spots, args.as_slice())?;
            put_application(bank, functions, name, args.as_slice())
        }
        CoreExpr::Op(operator, parts) => {
            let parts = put_expressions(bank, functions, spots, parts.as_slice())?;
            put_operator(bank, *operator, parts.as_slice())
        }
    }
}

/// The terms of expressions, in their order.
#[cycle(expression)]
pub(crate) fn put_expressions(
    bank: &mut Bank,
    functions: &[Function],
    spots: &Spots,
    expressions: &[CoreExpr],
) -> Result<Items<TermId>, NoMemory>
    requires { AreWithin bank.old spots.now }
    ensures terms { IfOk result (λ ids. DenoteAll bank.new ids
        (map (term_in functions.now (store_of bank.old spots.now)) expressions.now)) }
    ensures spots { OnOk result (AreWithin bank.new spots.now) }
    ensures kept { OnOk result (Extends bank.old bank.new) }
{
    let mut terms = Items::new(bank.allocator());
    for expression in expressions {
        let term = put_expression(bank, functions, spots, expression)?;
        terms.push(term)?;
    }
    Ok(terms)
}

// ---- functions and constants

/// The first function of this name, or the first constant.
///
/// It searches the declarations one by one: programs declare few of them.
fn declared<'a>(functions: &'a [Function], constant: bool, name: &Name) -> Option<&'a Function>
    ensures { option_copied result ≡ declared_as constant functions.now name.now }
{
    for function in functions {
        if function.constant == constant && name.is(&function.name) {
            return Some(function);
        }
    }
    None
}

fn result_sort(
    bank: &Bank,
    functions: &[Function],
    constant: bool,
    name: &Name,
) -> Result<Sort, NoMemory>
    ensures { IfOk result (λ s. s ≡ result_of (declared_as constant functions.now name.now)) }
{
    match declared(functions, constant, name) {
        Some(function) => function.result.clone_of(bank.allocator()),
        None => Ok(Sort::Bool),
    }
}

fn put_constant(bank: &mut Bank, functions: &[Function], name: &Name) -> Result<TermId, NoMemory>
    ensures term { IfOk result (λ id. Denotes bank.new id
        (leaf (head.Const name.now (result_of (declared_as true functions.now name.now))))) }
    ensures kept { OnOk result (Extends bank.old bank.new) }
{
    let sort = result_sort(bank, functions, true, name)?;
    let name = name.clone_of(bank.allocator())?;
    bank.put_tree(Head::Const(name, sort), &[])
}

fn put_application(
    bank: &mut Bank,
    functions: &[Function],
    name: &Name,
    args: &[TermId],
) -> Result<TermId, NoMemory>
    requires { All (λ id. id < length bank.old) args.now }
    ensures term { IfOk result (λ id. Denotes bank.new id
        (tree (head.App name.now (result_of (declared_as false functions.now name.now)))
        (map (tree_at bank.old) args.now))) }
    ensures kept { OnOk result (Extends bank.old bank.new) }
{
    let sort = result_sort(bank, functions, false, name)?;
    let name = name.clone_of(bank.allocator())?;
    bank.put_tree(Head::App(name, sort), args)
}

// ---- operators

/// An operator over its parts, or `false` where it takes another number of them.
fn put_operator(bank: &mut Bank, operator: CoreOp, parts: &[TermId]) -> Result<TermId, NoMemory>
    requires { All (λ id. id < length bank.old) parts.now }
    ensures term { IfOk result (λ id. Denotes bank.new id (op_term operator (map (tree_at bank.old) parts.now))) }
    ensures kept { OnOk result (Extends bank.old bank.new) }
{
    match parts {
        [part] => put_unary(bank, operator, *part),
        [left, right] => put_binary(bank, operator, *left, *right),
        [map, index, value] => put_ternary(bank, operator, *map, *index, *value),
        _ => put_truth(bank, false),
    }
}

fn put_unary(bank: &mut Bank, operator: CoreOp, part: TermId) -> Result<TermId, NoMemory>
    requires { part < length bank.old }
    ensures term { IfOk result (λ id. Denotes bank.new id (op_term operator (tree_at bank.old part ∷ []))) }
    ensures kept { OnOk result (Extends bank.old bank.new) }
{
    match operator {
        CoreOp::Not => bank.not(part),
        CoreOp::Neg => bank.put_tree(Head::Op(Op::Neg), &[part]),
        _ => put_truth(bank, false),
    }
}

fn put_binary(
    bank: &mut Bank,
    operator: CoreOp,
    left: TermId,
    right: TermId,
) -> Result<TermId, NoMemory>
    requires left { left < length bank.old }
    requires right { right < length bank.old }
    ensures term { IfOk result (λ id. Denotes bank.new id
        (op_term operator (tree_at bank.old left ∷ tree_at bank.old right ∷ []))) }
    ensures kept { OnOk result (Extends bank.old bank.new) }
{
    match operator {
        CoreOp::And => bank.and(left, right),
        CoreOp::Or => bank.or(left, right),
        CoreOp::Eq => bank.eq(left, right),
        CoreOp::Le => bank.le(left, right),
        CoreOp::Add => bank.put_tree(Head::Op(Op::Add), &[left, right]),
        CoreOp::Sub => bank.put_tree(Head::Op(Op::Sub), &[left, right]),
        CoreOp::Mul => bank.put_tree(Head::Op(Op::Mul), &[left, right]),
        CoreOp::Read => bank.put_tree(Head::Op(Op::Read), &[left, right]),
        _ => put_truth(bank, false),
    }
}

fn put_ternary(
    bank: &mut Bank,
    operator: CoreOp,
    map: TermId,
    index: TermId,
    value: TermId,
) -> Result<TermId, NoMemory>
    requires map { map < length bank.old }
    requires index { index < length bank.old }
    requires value { value < length bank.old }
    ensures term { IfOk result (λ id. Denotes bank.new id
        (op_term operator (tree_at bank.old map ∷ tree_at bank.old index ∷ tree_at bank.old value ∷ []))) }
    ensures kept { OnOk result (Extends bank.old bank.new) }
{
    match operator {
        CoreOp::Write => bank.put_tree(Head::Op(Op::Write), &[map, index, value]),
        _ => put_truth(bank, false),
    }
}
