//! The types of types and expressions.
ghost use Rattle.std.specs.Prelude.{◌≡◌};
ghost use Rattle.std.specs.Option.{option_copied};
ghost use Rattle.sd_types.specs.Answer.{Answers};
ghost use Rattle.sd_types.specs.Scopes.{context, variable_at, has_old};
ghost use Rattle.sd_types.specs.Phrases as spec;
ghost use Rattle.sd_types.specs.Phrases.{index_sort, known_sort, is_of, agree, same_number, unary_sort, from_to, binary_sort, selected, stored, applied, sort_in, at_place, sort_of, given, all_given, is_truth};
ghost use Rattle.sd_types.specs.Tables.{named};

use crate::refusal::{TypeError, unknown};
use crate::scope::{Given, Scope, Signature, Site, Variable, find_variable};
use crate::table::{NameList, Table};
use sd_ast::{BinOp, Expr, ExprKind, UnOp};
use sd_base::{CloneOf, Name, Place, Sort, is_same_sort};
use sqlite_items::{Boxed, Items};
use std::alloc::Global;

/// Sees that each type in a type is declared, and that maps have index types.
pub(crate) fn check_sort(alloc: Global, types: &NameList, sort: &Sort) -> Result<(), TypeError>
    ensures { Answers (known_sort types.now sort.now) result }
{
    match sort {
        Sort::Int => Ok(()),
        Sort::Bool => Ok(()),
        Sort::Named(name) => {
            if types.has(name) {
                Ok(())
            } else {
                unknown(alloc, name)
            }
        }
        Sort::Map(index, value) => {
            check_sort(alloc, types, index.get())?;
            check_sort(alloc, types, value.get())?;
            check_index(alloc, index.get())
        }
    }
}

/// An index type is `int` or a declared type.
fn check_index(alloc: Global, sort: &Sort) -> Result<(), TypeError>
    ensures { Answers (index_sort sort.now) result }
{
    match sort {
        Sort::Int => Ok(()),
        Sort::Bool => unknown(alloc, &Name::new(alloc, b"bool")?),
        Sort::Named(_) => Ok(()),
        Sort::Map(_, _) => unknown(alloc, &Name::new(alloc, b"[")?),
    }
}

/// Refuses a phrase of another type than the wanted one.
pub(crate) fn expect_sort(wanted: &Sort, at: Place, sort: &Sort) -> Result<(), TypeError>
    ensures { result ≡ is_of wanted.now at sort.now }
{
    if is_same_sort(wanted, sort) {
        Ok(())
    } else {
        Err(TypeError::Kind(at))
    }
}

/// Compares the phrases with the types that are wanted of them, as far as both go.
pub(crate) fn expect_sorts(sorts: &[Sort], phrases: &[Given]) -> Result<(), TypeError>
    ensures { result ≡ agree sorts.now phrases.now }
{
    for (i, phrase) in phrases.iter().enumerate() {
        let Some(sort) = sorts.get(i) else {
            return Ok(());
        };
        expect_sort(sort, phrase.at, &phrase.sort)?;
    }
    Ok(())
}

/// Refuses another number of phrases than of types.
pub(crate) fn expect_number(at: Place, sorts: &[Sort], phrases: &[Given]) -> Result<(), TypeError>
    ensures { result ≡ same_number at sorts.now phrases.now }
{
    if sorts.len() == phrases.len() {
        Ok(())
    } else {
        Err(TypeError::Arity(at))
    }
}

fn check_unary(op: UnOp, part: &Given) -> Result<Sort, TypeError>
    ensures { result ≡ unary_sort op part.now }
{
    match op {
        UnOp::Not => {
            expect_sort(&Sort::Bool, part.at, &part.sort)?;
            Ok(Sort::Bool)
        }
        UnOp::Neg => {
            expect_sort(&Sort::Int, part.at, &part.sort)?;
            Ok(Sort::Int)
        }
    }
}

/// The whole has its type where both parts have theirs.
fn both_of(part: &Sort, whole: Sort, left: &Given, right: &Given) -> Result<Sort, TypeError>
    ensures { result ≡ from_to part.now whole left.now right.now }
{
    expect_sort(part, left.at, &left.sort)?;
    expect_sort(part, right.at, &right.sort)?;
    Ok(whole)
}

fn check_binary(op: BinOp, left: &Given, right: &Given) -> Result<Sort, TypeError>
    ensures { result ≡ binary_sort op left.now right.now }
{
    match op {
        BinOp::Iff | BinOp::Implies | BinOp::Explies | BinOp::And | BinOp::Or => {
            both_of(&Sort::Bool, Sort::Bool, left, right)
        }
        BinOp::Eq | BinOp::Ne => {
            expect_sort(&left.sort, right.at, &right.sort)?;
            Ok(Sort::Bool)
        }
        BinOp::Lt | BinOp::Le | BinOp::Gt | BinOp::Ge => {
            both_of(&Sort::Int, Sort::Bool, left, right)
        }
        BinOp::Add | BinOp::Sub | BinOp::Mul => both_of(&Sort::Int, Sort::Int, left, right),
    }
}

/// The type of what stands in a map at an index. A type that is no map's is refused at the place.
pub(crate) fn select(at: Place, map: Sort, index: &Given) -> Result<Sort, TypeError>
    ensures { result ≡ selected at map index.now }
{
    match map {
        Sort::Map(wanted, value) => {
            expect_sort(wanted.get(), index.at, &index.sort)?;
            Ok(value.into_inner())
        }
        _ => Err(TypeError::Kind(at)),
    }
}

/// The type of a map with a new value at an index, which is that of the map.
fn store(alloc: Global, map: Given, index: &Given, value: &Given) -> Result<Sort, TypeError>
    ensures { Answers (stored map index.now value.now) result }
{
    let inside = select(map.at, map.sort.clone_of(alloc)?, index)?;
    expect_sort(&inside, value.at, &value.sort)?;
    Ok(map.sort)
}

/// The type of a function's result, where the arguments have the types of its declaration.
fn apply(
    alloc: Global,
    at: Place,
    name: &Name,
    function: Option<&Signature>,
    args: &[Given],
) -> Result<Sort, TypeError>
    ensures { Answers (applied at name.now (option_copied function.entry) args.now) result }
{
    let Some(function) = function else {
        return unknown(alloc, name);
    };
    expect_sorts(function.args.as_slice(), args)?;
    expect_number(at, function.args.as_slice(), args)?;
    Ok(function.result.clone_of(alloc)?)
}

/// The type of a variable.
pub(crate) fn sort_named(
    alloc: Global,
    name: &Name,
    variable: Option<&Variable>,
) -> Result<Sort, TypeError>
    ensures { Answers (sort_in name.now (option_copied variable.entry)) result }
{
    match variable {
        Some(variable) => Ok(variable.sort.clone_of(alloc)?),
        None => unknown(alloc, name),
    }
}

/// The type of an expression.
#[cycle(sort)]
pub(crate) fn expr_sort(
    alloc: Global,
    scope: &Scope,
    locals: &Table<Variable>,
    site: Site,
    expr: &Expr,
) -> Result<Sort, TypeError>
    ensures { Answers (sort_of (context scope.now locals.now site) expr.now.at expr.now.kind) result }
{
    match &expr.kind {
        ExprKind::Num(_) => Ok(Sort::Int),
        ExprKind::Truth(_) => Ok(Sort::Bool),
        ExprKind::Var(name) => { sort_named(alloc, name, find_variable(scope, locals, site, name)) }
        ExprKind::Apply(name, args) => {
            let args = given_args(alloc, scope, locals, site, args)?;
            apply(
                alloc,
                expr.at,
                name,
                scope.functions.get(name),
                args.as_slice(),
            )
        }
        ExprKind::Old(part) => {
            let part = given_part(alloc, scope, locals, site, part)?;
            if may_be_old(site) {
                Ok(part.sort)
            } else {
                Err(TypeError::Kind(expr.at))
            }
        }
        ExprKind::Unary(op, part) => {
            let part = given_part(alloc, scope, locals, site, part)?;
            check_unary(*op, &part)
        }
        ExprKind::Binary(op, left, right) => {
            let left = given_part(alloc, scope, locals, site, left)?;
            let right = given_part(alloc, scope, locals, site, right)?;
            check_binary(*op, &left, &right)
        }
        ExprKind::Select(map, index) => {
            let map = given_part(alloc, scope, locals, site, map)?;
            let index = given_part(alloc, scope, locals, site, index)?;
            select(map.at, map.sort, &index)
        }
        ExprKind::Store(map, index, value) => {
            let map = given_part(alloc, scope, locals, site, map)?;
            let index = given_part(alloc, scope, locals, site, index)?;
            let value = given_part(alloc, scope, locals, site, value)?;
            store(alloc, map, &index, &value)
        }
    }
}

#[cycle(sort)]
fn given_part(
    alloc: Global,
    scope: &Scope,
    locals: &Table<Variable>,
    site: Site,
    part: &Boxed<Expr>,
) -> Result<Given, TypeError>
    ensures { Answers (given (context scope.now locals.now site) part.now) result }
{
    let sort = expr_sort(alloc, scope, locals, site, part.get())?;
    Ok(Given {
        at: part.get().at,
        sort,
    })
}

/// The types of the arguments, in order.
#[cycle(sort)]
pub(crate) fn given_args(
    alloc: Global,
    scope: &Scope,
    locals: &Table<Variable>,
    site: Site,
    args: &Items<Expr>,
) -> Result<Items<Given>, TypeError>
    ensures { Answers (all_given (context scope.now locals.now site) args.now) result }
{
    let mut given = Items::new(alloc);
    for arg in args.as_slice() {
        let sort = expr_sort(alloc, scope, locals, site, arg)?;
        given.push(Given { at: arg.at, sort })?;
    }
    Ok(given)
}

/// Sees that an expression is a truth value.
pub(crate) fn expect_truth(
    alloc: Global,
    scope: &Scope,
    locals: &Table<Variable>,
    site: Site,
    expr: &Expr,
) -> Result<(), TypeError>
    ensures { Answers (is_truth (context scope.now locals.now site) expr.now) result }
{
    let sort = expr_sort(alloc, scope, locals, site, expr)?;
    expect_sort(&Sort::Bool, expr.at, &sort)
}

/// Whether `old` may stand there.
fn may_be_old(site: Site) -> bool
    ensures { result ≡ has_old site }
{
    matches!(site, Site::Ensures | Site::Body)
}
