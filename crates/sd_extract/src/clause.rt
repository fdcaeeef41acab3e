//! Clauses as checks and assumptions.
ghost use Rattle.std.specs.Prelude.{◌≡◌, ◌++◌, ◌∷◌, [], map, IfOk, OnOk};
ghost use Rattle.sd_meaning.specs.Routine.{requires_of, ensures_of, clauses_of};
ghost use Rattle.sd_extract.specs.Names.{core_of};
ghost use Rattle.sd_extract.specs.Extract as spec;
ghost use Rattle.sd_extract.specs.Scopes.{names_in, clause_stmt};

use crate::build::negated;
use crate::expression::expression;
use crate::scope::Scope;
use sd_ast::{Expr, Invariant, Spec};
use sd_base::NoMemory;
use sd_core::{CoreExpr, CoreStmt};
use sqlite_items::Items;
use std::alloc::Global;

/// A condition that is assumed where it is free. Elsewhere the flag goes up where it is false.
pub(crate) fn checked(alloc: Global, free: bool, e: CoreExpr) -> Result<CoreStmt, NoMemory>
    ensures { IfOk result (λ s. s ≡ spec.checked free e) }
{
    if free {
        return Ok(CoreStmt::Assume(e));
    }
    let denied = negated(alloc, e)?;
    let mut fails = Items::new(alloc);
    fails.push(CoreStmt::Fail)?;
    Ok(CoreStmt::If(denied, fails, Items::new(alloc)))
}

pub(crate) fn push_check(
    alloc: Global,
    scope: &Scope,
    free: bool,
    e: &Expr,
    out: &mut Items<CoreStmt>,
) -> Result<(), NoMemory>
    ensures { OnOk result (out.new ≡ out.old ++ spec.checked free (core_of (names_in scope.now) e.now.kind) ∷ []) }
{
    let e = expression(alloc, scope, &e.kind)?;
    out.push(checked(alloc, free, e)?)?;
    Ok(())
}

/// A clause of a procedure, if it is a `requires`.
fn push_requirement(
    alloc: Global,
    scope: &Scope,
    assumed: bool,
    clause: &Spec,
    out: &mut Items<CoreStmt>,
) -> Result<(), NoMemory>
    ensures { OnOk result (out.new ≡ out.old ++ map (clause_stmt (names_in scope.now) assumed)
        (requires_of (clause.now ∷ []))) }
{
    match clause {
        Spec::Requires(free, e) => push_check(alloc, scope, assumed || *free, e, out),
        _ => Ok(()),
    }
}

/// The `requires` among clauses. All are assumed, or those that are free.
pub(crate) fn push_requires(
    alloc: Global,
    scope: &Scope,
    assumed: bool,
    clauses: &[Spec],
    out: &mut Items<CoreStmt>,
) -> Result<(), NoMemory>
    ensures { OnOk result
        (out.new ≡ out.old ++ map (clause_stmt (names_in scope.now) assumed) (requires_of clauses.now)) }
{
    for clause in clauses {
        push_requirement(alloc, scope, assumed, clause, out)?;
    }
    Ok(())
}

/// A clause of a procedure, if it is an `ensures`.
fn push_promise(
    alloc: Global,
    scope: &Scope,
    clause: &Spec,
    out: &mut Items<CoreStmt>,
) -> Result<(), NoMemory>
    ensures { OnOk result (out.new ≡ out.old ++ map (spec.check (names_in scope.now)) (ensures_of (clause.now ∷ []))) }
{
    match clause {
        Spec::Ensures(free, e) => push_check(alloc, scope, *free, e, out),
        _ => Ok(()),
    }
}

/// The `ensures` among clauses.
pub(crate) fn push_ensures(
    alloc: Global,
    scope: &Scope,
    clauses: &[Spec],
    out: &mut Items<CoreStmt>,
) -> Result<(), NoMemory>
    ensures { OnOk result (out.new ≡ out.old ++ map (spec.check (names_in scope.now)) (ensures_of clauses.now)) }
{
    for clause in clauses {
        push_promise(alloc, scope, clause, out)?;
    }
    Ok(())
}

/// The invariants of a loop.
pub(crate) fn push_invariants(
    alloc: Global,
    scope: &Scope,
    invariants: &[Invariant],
    out: &mut Items<CoreStmt>,
) -> Result<(), NoMemory>
    ensures { OnOk result (out.new ≡ out.old ++ map (spec.check (names_in scope.now)) (clauses_of invariants.now)) }
{
    for invariant in invariants {
        push_check(alloc, scope, invariant.free, &invariant.expr, out)?;
    }
    Ok(())
}
