//! Whether two bodies are one once the numbers of procedures and globals are replaced by those of their partners.
ghost use Rattle.std.specs.Prelude.{◌≡◌, ◌⊎◌, ◌↔◌, IsTrue, Some, None};
ghost use Rattle.std.specs.List.{AllZip};
ghost use Rattle.sd_core.specs.Formed.{sorts_of, names_of};
ghost use Rattle.sd_core.specs.Same.{partner_in, SameNames, IsSameBody};
ghost use Rattle.sd_core.specs.Becomes.{BecomesSpot, BecomesExpr, BecomesStmt};

use crate::tree::{CoreExpr, CoreProc, CoreStmt, Spot};
use sd_base::{Var, is_same_sort};

/// Whether the body of `a` is that of `b` once its numbers are replaced, where the lists have the partner of each
/// procedure and of each global, in their order. A number beyond a list has no partner. The procedures of loops have
/// variables of the same names too. Names of procedures aren't compared.
pub fn same_body(a: &CoreProc, b: &CoreProc, procs: &[Option<u32>], globals: &[Option<u32>]) -> bool
    ensures { IsTrue result ↔ IsSameBody (record { procs = procs.now; globals = globals.now }) a.now b.now }
{
    have_same_variables(a, b)
        && are_same_stmts(procs, globals, a.body.as_slice(), b.body.as_slice())
}

// ---- variables

fn have_same_variables(a: &CoreProc, b: &CoreProc) -> bool
    ensures { IsTrue result ↔ ((sorts_of a.now.ins ≡ sorts_of b.now.ins)
        × (sorts_of a.now.outs ≡ sorts_of b.now.outs)
        × (sorts_of a.now.locals ≡ sorts_of b.now.locals)
        × (((a.now.parent ≡ None) × (b.now.parent ≡ None)) ⊎ SameNames a.now b.now)) }
{
    have_same_sorts(a.ins.as_slice(), b.ins.as_slice())
        && have_same_sorts(a.outs.as_slice(), b.outs.as_slice())
        && have_same_sorts(a.locals.as_slice(), b.locals.as_slice())
        && may_have_these_names(a, b)
}

/// Whether neither belongs to a loop, or the variables have the same names.
fn may_have_these_names(a: &CoreProc, b: &CoreProc) -> bool
    ensures { IsTrue result ↔ (((a.now.parent ≡ None) × (b.now.parent ≡ None)) ⊎ SameNames a.now b.now) }
{
    if a.parent.is_none() && b.parent.is_none() {
        true
    } else {
        have_same_names(a.ins.as_slice(), b.ins.as_slice())
            && have_same_names(a.outs.as_slice(), b.outs.as_slice())
            && have_same_names(a.locals.as_slice(), b.locals.as_slice())
    }
}

fn have_same_sorts(a: &[Var], b: &[Var]) -> bool
    ensures { IsTrue result ↔ (sorts_of a.now ≡ sorts_of b.now) }
{
    if a.len() != b.len() {
        return false;
    }
    for (x, y) in a.iter().zip(b) {
        if !is_same_sort(&x.sort, &y.sort) {
            return false;
        }
    }
    true
}

fn have_same_names(a: &[Var], b: &[Var]) -> bool
    ensures { IsTrue result ↔ (names_of a.now ≡ names_of b.now) }
{
    if a.len() != b.len() {
        return false;
    }
    for (x, y) in a.iter().zip(b) {
        if !x.name.is(&y.name) {
            return false;
        }
    }
    true
}

// ---- numbers

/// Whether `a` has this partner.
fn is_partner(partners: &[Option<u32>], a: u32, b: u32) -> bool
    ensures { IsTrue result ↔ (partner_in partners.now a ≡ Some b) }
{
    match partners.get(a as usize) {
        Some(partner) => *partner == Some(b),
        None => false,
    }
}

fn is_same_spot(globals: &[Option<u32>], a: Spot, b: Spot) -> bool
    ensures { IsTrue result ↔ BecomesSpot globals.now a b }
{
    match (a, b) {
        (Spot::Slot(i), Spot::Slot(j)) => i == j,
        (Spot::Global(i), Spot::Global(j)) => is_partner(globals, i, j),
        _ => false,
    }
}

fn are_same_spots(globals: &[Option<u32>], a: &[Spot], b: &[Spot]) -> bool
    ensures { IsTrue result ↔ AllZip (BecomesSpot globals.now) a.now b.now }
{
    if a.len() != b.len() {
        return false;
    }
    for (p, q) in a.iter().zip(b) {
        if !is_same_spot(globals, *p, *q) {
            return false;
        }
    }
    true
}

// ---- expressions

#[cycle(expr)]
fn is_same_expr(globals: &[Option<u32>], a: &CoreExpr, b: &CoreExpr) -> bool
    ensures { IsTrue result ↔ BecomesExpr globals.now a.now b.now }
{
    match (a, b) {
        (CoreExpr::Num(m), CoreExpr::Num(n)) => *m == *n,
        (CoreExpr::Truth(s), CoreExpr::Truth(t)) => *s == *t,
        (CoreExpr::At(p), CoreExpr::At(q)) => is_same_spot(globals, *p, *q),
        (CoreExpr::Const(c), CoreExpr::Const(d)) => c.is(d),
        (CoreExpr::Apply(f, es), CoreExpr::Apply(g, fs)) => {
            f.is(g) && are_same_exprs(globals, es.as_slice(), fs.as_slice())
        }
        (CoreExpr::Op(o, es), CoreExpr::Op(p, fs)) => {
            *o == *p && are_same_exprs(globals, es.as_slice(), fs.as_slice())
        }
        _ => false,
    }
}

#[cycle(expr)]
fn are_same_exprs(globals: &[Option<u32>], a: &[CoreExpr], b: &[CoreExpr]) -> bool
    ensures { IsTrue result ↔ AllZip (BecomesExpr globals.now) a.now b.now }
{
    if a.len() != b.len() {
        return false;
    }
    for (e, f) in a.iter().zip(b) {
        if !is_same_expr(globals, e, f) {
            return false;
        }
    }
    true
}

// ---- statements

#[cycle(stmt)]
fn is_same_stmt(procs: &[Option<u32>], globals: &[Option<u32>], a: &CoreStmt, b: &CoreStmt) -> bool
    ensures { IsTrue result ↔ BecomesStmt (record { procs = procs.now; globals = globals.now }) a.now b.now }
{
    match (a, b) {
        (CoreStmt::Assign(ps, es), CoreStmt::Assign(qs, fs)) => {
            are_same_spots(globals, ps.as_slice(), qs.as_slice())
                && are_same_exprs(globals, es.as_slice(), fs.as_slice())
        }
        (CoreStmt::If(c, yes, no), CoreStmt::If(d, then, other)) => {
            is_same_expr(globals, c, d)
                && are_same_stmts(procs, globals, yes.as_slice(), then.as_slice())
                && are_same_stmts(procs, globals, no.as_slice(), other.as_slice())
        }
        (CoreStmt::Call(ps, f, es), CoreStmt::Call(qs, g, fs)) => {
            are_same_spots(globals, ps.as_slice(), qs.as_slice())
                && is_partner(procs, *f, *g)
                && are_same_exprs(globals, es.as_slice(), fs.as_slice())
        }
        (CoreStmt::Assume(c), CoreStmt::Assume(d)) => is_same_expr(globals, c, d),
        (CoreStmt::Fail, CoreStmt::Fail) => true,
        (CoreStmt::Return, CoreStmt::Return) => true,
        _ => false,
    }
}

#[cycle(stmt)]
fn are_same_stmts(
    procs: &[Option<u32>],
    globals: &[Option<u32>],
    a: &[CoreStmt],
    b: &[CoreStmt],
) -> bool
    ensures { IsTrue result ↔ AllZip (BecomesStmt (record { procs = procs.now; globals = globals.now })) a.now b.now }
{
    if a.len() != b.len() {
        return false;
    }
    for (s, t) in a.iter().zip(b) {
        if !is_same_stmt(procs, globals, s, t) {
            return false;
        }
    }
    true
}
