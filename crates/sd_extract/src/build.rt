//! Core expressions of source operators.
ghost use Rattle.std.specs.Prelude.{◌≡◌, IfOk, [], ◌∷◌};
ghost use Rattle.sd_core.specs.declared.tree.CoreExpr.{Op as Operation};
ghost use Rattle.sd_extract.specs.Names.{negated as negation, both as with_two, unary_of, binary_of};

use sd_ast::{BinOp, UnOp};
use sd_base::NoMemory;
use sd_core::{CoreExpr, CoreOp};
use sqlite_items::Items;
use std::alloc::Global;

fn one(alloc: Global, op: CoreOp, a: CoreExpr) -> Result<CoreExpr, NoMemory>
    ensures { IfOk result (λ e. e ≡ Operation op (a ∷ [])) }
{
    let mut parts = Items::new(alloc);
    parts.push(a)?;
    Ok(CoreExpr::Op(op, parts))
}

pub(crate) fn two(alloc: Global, op: CoreOp, a: CoreExpr, b: CoreExpr) -> Result<CoreExpr, NoMemory>
    ensures { IfOk result (λ e. e ≡ with_two op a b) }
{
    let mut parts = Items::new(alloc);
    parts.push(a)?;
    parts.push(b)?;
    Ok(CoreExpr::Op(op, parts))
}

pub(crate) fn three(
    alloc: Global,
    op: CoreOp,
    a: CoreExpr,
    b: CoreExpr,
    c: CoreExpr,
) -> Result<CoreExpr, NoMemory>
    ensures { IfOk result (λ e. e ≡ Operation op (a ∷ b ∷ c ∷ [])) }
{
    let mut parts = Items::new(alloc);
    parts.push(a)?;
    parts.push(b)?;
    parts.push(c)?;
    Ok(CoreExpr::Op(op, parts))
}

pub(crate) fn negated(alloc: Global, a: CoreExpr) -> Result<CoreExpr, NoMemory>
    ensures { IfOk result (λ e. e ≡ negation a) }
{
    one(alloc, CoreOp::Not, a)
}

/// An operator before its operand.
pub(crate) fn unary(alloc: Global, op: UnOp, a: CoreExpr) -> Result<CoreExpr, NoMemory>
    ensures { IfOk result (λ e. e ≡ unary_of op a) }
{
    match op {
        UnOp::Not => negated(alloc, a),
        UnOp::Neg => one(alloc, CoreOp::Neg, a),
    }
}

/// An operator between its operands.
pub(crate) fn binary(
    alloc: Global,
    op: BinOp,
    a: CoreExpr,
    b: CoreExpr,
) -> Result<CoreExpr, NoMemory>
    ensures { IfOk result (λ e. e ≡ binary_of op a b) }
{
    match op {
        BinOp::Iff | BinOp::Eq => two(alloc, CoreOp::Eq, a, b),
        BinOp::Implies => two(alloc, CoreOp::Or, negated(alloc, a)?, b),
        BinOp::Explies => two(alloc, CoreOp::Or, a, negated(alloc, b)?),
        BinOp::And => two(alloc, CoreOp::And, a, b),
        BinOp::Or => two(alloc, CoreOp::Or, a, b),
        BinOp::Ne => negated(alloc, two(alloc, CoreOp::Eq, a, b)?),
        BinOp::Lt => negated(alloc, two(alloc, CoreOp::Le, b, a)?),
        BinOp::Le => two(alloc, CoreOp::Le, a, b),
        BinOp::Gt => negated(alloc, two(alloc, CoreOp::Le, a, b)?),
        BinOp::Ge => two(alloc, CoreOp::Le, b, a),
        BinOp::Add => two(alloc, CoreOp::Add, a, b),
        BinOp::Sub => two(alloc, CoreOp::Sub, a, b),
        BinOp::Mul => two(alloc, CoreOp::Mul, a, b),
    }
}
