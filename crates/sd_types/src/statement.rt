//! The rules on statements.
ghost use Rattle.std.specs.Option.{option_copied};
ghost use Rattle.sd_types.specs.declared.scope.Site.TheVariants as spot;
ghost use Rattle.sd_types.specs.Answer.{Answers, each};
ghost use Rattle.sd_types.specs.Scopes.{context};
ghost use Rattle.sd_types.specs.Statements.{routine_of, assignment, assign_rule, has_body, same_numbers, fits_callee, callee_rule, call_rule, true_invariant, break_rule, stmt_rule, each_stmt};

use crate::assigned::{
    check_all_assignable, check_all_modified, check_distinct, check_indices, given_targets,
    names_of_lefts, sorts_of_lefts,
};
use crate::phrase::{expect_number, expect_sorts, expect_truth, given_args};
use crate::refusal::{TypeError, no_body, unknown};
use crate::scope::{Callee, Frame, Given, Scope, Site, Variable};
use crate::table::{NameList, Table};
use sd_ast::{Expr, Invariant, Left, Stmt, StmtKind};
use sd_base::{Name, Place};
use sqlite_items::Items;
use std::alloc::Global;

/// An assignment of values that have types.
fn check_targets(
    alloc: Global,
    frame: &Frame<'_>,
    at: Place,
    lefts: &Items<Left>,
    values: &Items<Given>,
) -> Result<(), TypeError>
    ensures { Answers (assignment (routine_of frame.now) at lefts.now values.now) result }
{
    let names = names_of_lefts(alloc, lefts)?;
    check_distinct(alloc, &names)?;
    given_targets(alloc, frame.scope, frame.locals, at, &names)?;
    let sorts = sorts_of_lefts(alloc, frame.scope, frame.locals, at, lefts)?;
    expect_sorts(sorts.as_slice(), values.as_slice())?;
    expect_number(at, sorts.as_slice(), values.as_slice())?;
    check_all_assignable(alloc, frame, &names)
}

fn check_assign(
    alloc: Global,
    frame: &Frame<'_>,
    at: Place,
    lefts: &Items<Left>,
    rights: &Items<Expr>,
) -> Result<(), TypeError>
    ensures { Answers (assign_rule (routine_of frame.now) at lefts.now rights.now) result }
{
    check_indices(alloc, frame.scope, frame.locals, lefts)?;
    let values = given_args(alloc, frame.scope, frame.locals, Site::Body, rights)?;
    check_targets(alloc, frame, at, lefts, &values)
}

fn check_body_of(alloc: Global, bodies: &NameList, name: &Name) -> Result<(), TypeError>
    ensures { Answers (has_body bodies.now name.now) result }
{
    if bodies.has(name) {
        Ok(())
    } else {
        no_body(alloc, name)
    }
}

fn check_numbers(
    at: Place,
    callee: &Callee,
    receivers: &Items<Given>,
    args: &Items<Given>,
) -> Result<(), TypeError>
    ensures { Answers (same_numbers at callee.now receivers.now args.now) result }
{
    expect_number(at, callee.outs.as_slice(), receivers.as_slice())?;
    expect_number(at, callee.ins.as_slice(), args.as_slice())
}

/// Compares the receivers and the arguments with what the callee gives and takes.
fn check_parameters(
    at: Place,
    callee: &Callee,
    receivers: &Items<Given>,
    args: &Items<Given>,
) -> Result<(), TypeError>
    ensures { Answers (fits_callee at callee.now receivers.now args.now) result }
{
    expect_sorts(callee.outs.as_slice(), receivers.as_slice())?;
    expect_sorts(callee.ins.as_slice(), args.as_slice())?;
    check_numbers(at, callee, receivers, args)
}

/// A call with arguments that have types.
fn check_callee(
    alloc: Global,
    frame: &Frame<'_>,
    at: Place,
    receivers: &Items<Name>,
    name: &Name,
    args: &Items<Given>,
) -> Result<(), TypeError>
    ensures { Answers (callee_rule (routine_of frame.now) at receivers.now name.now args.now) result }
{
    check_distinct(alloc, receivers)?;
    let targets = given_targets(alloc, frame.scope, frame.locals, at, receivers)?;
    let Some(callee) = frame.scope.procedures.get(name) else {
        return unknown(alloc, name);
    };
    check_parameters(at, callee, &targets, args)?;
    check_all_assignable(alloc, frame, receivers)?;
    check_all_modified(alloc, frame, &callee.modifies)?;
    check_body_of(alloc, &frame.scope.bodies, name)
}

fn check_call(
    alloc: Global,
    frame: &Frame<'_>,
    at: Place,
    receivers: &Items<Name>,
    name: &Name,
    args: &Items<Expr>,
) -> Result<(), TypeError>
    ensures { Answers (call_rule (routine_of frame.now) at receivers.now name.now args.now) result }
{
    let args = given_args(alloc, frame.scope, frame.locals, Site::Body, args)?;
    check_callee(alloc, frame, at, receivers, name, &args)
}

fn check_invariants(
    alloc: Global,
    scope: &Scope,
    locals: &Table<Variable>,
    invariants: &Items<Invariant>,
) -> Result<(), TypeError>
    ensures { Answers (each (true_invariant (context scope.now locals.now spot.Body)) invariants.now) result }
{
    for invariant in invariants.as_slice() {
        expect_truth(alloc, scope, locals, Site::Body, &invariant.expr)?;
    }
    Ok(())
}

fn check_break(in_loop: bool, at: Place) -> Result<(), TypeError>
    ensures { Answers (break_rule in_loop at) result }
{
    if in_loop {
        Ok(())
    } else {
        Err(TypeError::NoLoop(at))
    }
}

/// A statement, inside a loop or not.
#[cycle(statement)]
fn check_stmt(alloc: Global, frame: &Frame<'_>, in_loop: bool, stmt: &Stmt) -> Result<(), TypeError>
    ensures { Answers (stmt_rule (routine_of frame.now) in_loop stmt.now.at stmt.now.kind) result }
{
    match &stmt.kind {
        StmtKind::Assert(expr) => expect_truth(alloc, frame.scope, frame.locals, Site::Body, expr),
        StmtKind::Assume(expr) => expect_truth(alloc, frame.scope, frame.locals, Site::Body, expr),
        StmtKind::Assign(lefts, rights) => { check_assign(alloc, frame, stmt.at, lefts, rights) }
        StmtKind::Call(receivers, name, args) => {
            check_call(alloc, frame, stmt.at, receivers, name, args)
        }
        StmtKind::If(guard, then, other) => {
            expect_truth(alloc, frame.scope, frame.locals, Site::Body, guard)?;
            check_stmts(alloc, frame, in_loop, then)?;
            check_stmts(alloc, frame, in_loop, other)
        }
        StmtKind::While(guard, invariants, body) => {
            expect_truth(alloc, frame.scope, frame.locals, Site::Body, guard)?;
            check_invariants(alloc, frame.scope, frame.locals, invariants)?;
            check_stmts(alloc, frame, true, body)
        }
        StmtKind::Break => check_break(in_loop, stmt.at),
        StmtKind::Return => Ok(()),
    }
}

/// Statements one after another.
#[cycle(statement)]
pub(crate) fn check_stmts(
    alloc: Global,
    frame: &Frame<'_>,
    in_loop: bool,
    stmts: &Items<Stmt>,
) -> Result<(), TypeError>
    ensures { Answers (each_stmt (routine_of frame.now) in_loop stmts.now) result }
{
    for stmt in stmts.as_slice() {
        check_stmt(alloc, frame, in_loop, stmt)?;
    }
    Ok(())
}
