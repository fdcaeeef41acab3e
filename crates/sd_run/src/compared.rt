//! The test for programs over truth values and integers, without products.
ghost use Rattle.std.specs.Prelude.{◌≡◌, ◌↔◌, true};
ghost use Rattle.std.specs.List.{list_all};
ghost use Rattle.sd_run.specs.Compared as form;
ghost use Rattle.sd_run.specs.ComparedPrograms.{IsComparedProgram};

use sd_ast::{
    BinOp, Body, Decl, Expr, ExprKind, Head, Invariant, Left, Program, Spec, Stmt, StmtKind,
};
use sd_base::{Sort, Var};
use sqlite_items::{Boxed, Items};

/// Whether a program is compared today: it is over truth values and integers, without products, functions, constants
/// and axioms.
pub fn is_compared_program(program: &Program) -> bool
    ensures { (result ≡ true) ↔ IsComparedProgram program.now }
{
    are_compared_decls(program.decls.as_slice())
}

fn are_compared_decls(decls: &[Decl]) -> bool
    ensures { result ≡ list_all form.is_compared_decl decls.now }
{
    decls.iter().all(|decl| is_compared_decl(decl))
}

fn is_compared_decl(decl: &Decl) -> bool
    ensures { result ≡ form.is_compared_decl decl.now }
{
    match decl {
        Decl::Globals(vars) => are_plain(vars.as_slice()),
        Decl::Procedure(procedure) => {
            is_compared_head(&procedure.head)
                && are_compared_specs(procedure.specs.as_slice())
                && maybe_compared_body(&procedure.body)
        }
        Decl::Implementation(implementation) => {
            is_compared_head(&implementation.head) && is_compared_body(&implementation.body)
        }
        _ => false,
    }
}

fn is_compared_head(head: &Head) -> bool
    ensures { result ≡ form.is_compared_head head.now }
{
    are_plain(head.ins.as_slice()) && are_plain(head.outs.as_slice())
}

fn maybe_compared_body(body: &Option<Body>) -> bool
    ensures { result ≡ form.maybe_compared_body body.now }
{
    match body {
        None => true,
        Some(body) => is_compared_body(body),
    }
}

fn is_compared_body(body: &Body) -> bool
    ensures { result ≡ form.is_compared_body body.now }
{
    are_plain(body.locals.as_slice()) && are_compared(&body.stmts)
}

fn are_compared_specs(specs: &[Spec]) -> bool
    ensures { result ≡ list_all form.is_compared_spec specs.now }
{
    specs.iter().all(|spec| is_compared_spec(spec))
}

fn is_compared_spec(spec: &Spec) -> bool
    ensures { result ≡ form.is_compared_spec spec.now }
{
    match spec {
        Spec::Modifies(_) => true,
        Spec::Requires(_, expr) => has_no_product(expr),
        Spec::Ensures(_, expr) => has_no_product(expr),
    }
}

fn are_plain(vars: &[Var]) -> bool
    ensures { result ≡ form.are_plain vars.now }
{
    vars.iter().all(|var| is_plain_sort(&var.sort))
}

fn is_plain_sort(sort: &Sort) -> bool
    ensures { result ≡ form.is_plain_sort sort.now }
{
    match sort {
        Sort::Int => true,
        Sort::Bool => true,
        _ => false,
    }
}

#[cycle(stmt)]
fn are_compared(stmts: &Items<Stmt>) -> bool
    ensures { result ≡ form.are_compared stmts.now }
{
    for stmt in stmts.as_slice() {
        if !is_compared(stmt) {
            return false;
        }
    }
    true
}

#[cycle(stmt)]
fn is_compared(stmt: &Stmt) -> bool
    ensures { result ≡ form.is_compared stmt.now.kind }
{
    match &stmt.kind {
        StmtKind::Assert(expr) => has_no_product(expr),
        StmtKind::Assume(expr) => has_no_product(expr),
        StmtKind::Assign(lefts, exprs) => {
            no_index_has_product(lefts.as_slice()) && none_has_product(exprs)
        }
        StmtKind::Call(_, _, args) => none_has_product(args),
        StmtKind::If(guard, then, other) => {
            has_no_product(guard) && are_compared(then) && are_compared(other)
        }
        StmtKind::While(guard, invariants, turn) => {
            has_no_product(guard) && are_compared_invariants(invariants) && are_compared(turn)
        }
        StmtKind::Break => true,
        StmtKind::Return => true,
    }
}

fn are_compared_invariants(invariants: &Items<Invariant>) -> bool
    ensures { result ≡ list_all (λ i. form.has_no_product i.expr.kind) invariants.now }
{
    invariants
        .as_slice()
        .iter()
        .all(|invariant| has_no_product(&invariant.expr))
}

fn no_index_has_product(lefts: &[Left]) -> bool
    ensures { result ≡ list_all (λ l. form.none_has_product l.indices) lefts.now }
{
    lefts.iter().all(|left| none_has_product(&left.indices))
}

#[cycle(expr)]
fn none_has_product(exprs: &Items<Expr>) -> bool
    ensures { result ≡ form.none_has_product exprs.now }
{
    for expr in exprs.as_slice() {
        if !has_no_product(expr) {
            return false;
        }
    }
    true
}

#[cycle(expr)]
fn has_no_product(expr: &Expr) -> bool
    ensures { result ≡ form.has_no_product expr.now.kind }
{
    match &expr.kind {
        ExprKind::Apply(_, args) => none_has_product(args),
        ExprKind::Old(child) => child_has_no_product(child),
        ExprKind::Unary(_, child) => child_has_no_product(child),
        ExprKind::Binary(op, left, right) => {
            is_no_product(*op) && child_has_no_product(left) && child_has_no_product(right)
        }
        ExprKind::Select(map, index) => child_has_no_product(map) && child_has_no_product(index),
        ExprKind::Store(map, index, value) => {
            child_has_no_product(map) && child_has_no_product(index) && child_has_no_product(value)
        }
        ExprKind::Num(_) => true,
        ExprKind::Truth(_) => true,
        ExprKind::Var(_) => true,
    }
}

fn is_no_product(op: BinOp) -> bool
    ensures { result ≡ form.is_no_product op }
{
    match op {
        BinOp::Mul => false,
        _ => true,
    }
}

#[cycle(expr)]
fn child_has_no_product(child: &Boxed<Expr>) -> bool
    ensures { result ≡ form.has_no_product child.now.kind }
{
    has_no_product(child.get())
}
