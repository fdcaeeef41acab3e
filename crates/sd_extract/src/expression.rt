//! Expressions over spots in place of names.
ghost use Rattle.std.specs.Prelude.{◌≡◌, ◌++◌, IfOk, OnOk};
ghost use Rattle.sd_extract.specs.Names.{core_of};
ghost use Rattle.sd_extract.specs.Extract.{cores};
ghost use Rattle.sd_extract.specs.Scopes.{names_in};

use crate::build::{binary, three, two, unary};
use crate::scope::Scope;
use sd_ast::{Expr, ExprKind};
use sd_base::{CloneOf, NoMemory};
use sd_core::{CoreExpr, CoreOp};
use sqlite_items::Items;
use std::alloc::Global;

/// An expression with the spots of its names.
#[cycle(expression)]
pub(crate) fn expression(alloc: Global, scope: &Scope, e: &ExprKind) -> Result<CoreExpr, NoMemory>
    ensures { IfOk result (λ core. core ≡ core_of (names_in scope.now) e.now) }
{
    match e {
        ExprKind::Num(n) => Ok(CoreExpr::Num(*n)),
        ExprKind::Truth(b) => Ok(CoreExpr::Truth(*b)),
        ExprKind::Var(x) => scope.named(alloc, x),
        ExprKind::Apply(f, args) => Ok(CoreExpr::Apply(
            f.clone_of(alloc)?,
            expressions(alloc, scope, args.as_slice())?,
        )),
        ExprKind::Old(a) => {
            let before = Scope {
                local_names: scope.local_names,
                locals: scope.locals,
                global_names: scope.global_names,
                globals: scope.entry,
                entry: scope.entry,
            };
            expression(alloc, &before, &a.get().kind)
        }
        ExprKind::Unary(op, a) => {
            let a = expression(alloc, scope, &a.get().kind)?;
            unary(alloc, *op, a)
        }
        ExprKind::Binary(op, a, b) => {
            let a = expression(alloc, scope, &a.get().kind)?;
            let b = expression(alloc, scope, &b.get().kind)?;
            binary(alloc, *op, a, b)
        }
        ExprKind::Select(m, i) => {
            let m = expression(alloc, scope, &m.get().kind)?;
            let i = expression(alloc, scope, &i.get().kind)?;
            two(alloc, CoreOp::Read, m, i)
        }
        ExprKind::Store(m, i, v) => {
            let m = expression(alloc, scope, &m.get().kind)?;
            let i = expression(alloc, scope, &i.get().kind)?;
            let v = expression(alloc, scope, &v.get().kind)?;
            three(alloc, CoreOp::Write, m, i, v)
        }
    }
}

/// Expressions with the spots of their names.
#[cycle(expression)]
pub(crate) fn expressions(
    alloc: Global,
    scope: &Scope,
    es: &[Expr],
) -> Result<Items<CoreExpr>, NoMemory>
    ensures { IfOk result (λ list. list ≡ cores (names_in scope.now) es.now) }
{
    let mut list = Items::new(alloc);
    for e in es {
        list.push(expression(alloc, scope, &e.kind)?)?;
    }
    Ok(list)
}
