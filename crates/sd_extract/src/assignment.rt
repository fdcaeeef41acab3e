//! Assignments, also into maps.
ghost use Rattle.std.specs.Prelude.{◌≡◌, ◌<◌, ◌≤◌, length, take, drop, map, IfOk, OnOk};
ghost use Rattle.sd_core.specs.declared.tree.CoreExpr.{CoreExpr as Core};
ghost use Rattle.sd_core.specs.declared.tree.CoreOp.TheVariants as op;
ghost use Rattle.sd_core.specs.declared.tree.CoreStmt.{Assign as Assignment};
ghost use Rattle.sd_extract.specs.Names.{at_place, place_of, both, core_of};
ghost use Rattle.sd_extract.specs.Extract.{stored, cores, all_stored, spot_of};
ghost use Rattle.sd_extract.specs.Scopes.{names_in, reads};

use crate::build::{three, two};
use crate::expression::expression;
use crate::scope::Scope;
use sd_ast::{Expr, Left};
use sd_base::{Name, NoMemory};
use sd_core::{CoreExpr, CoreOp, CoreStmt, Spot};
use sqlite_items::Items;
use std::alloc::Global;

/// What stands in a map at some indices.
fn read_at(
    alloc: Global,
    scope: &Scope,
    name: &Name,
    indices: &[Expr],
) -> Result<CoreExpr, NoMemory>
    ensures { IfOk result (λ e. e ≡ reads (at_place (place_of (names_in scope.now) name.now) name.now)
        (cores (names_in scope.now) indices.now)) }
{
    let mut e = scope.named(alloc, name)?;
    for index in indices {
        e = two(
            alloc,
            CoreOp::Read,
            e,
            expression(alloc, scope, &index.kind)?,
        )?;
    }
    Ok(e)
}

/// What a left side is to hold.
fn stored_at(alloc: Global, scope: &Scope, left: &Left, new: CoreExpr) -> Result<CoreExpr, NoMemory>
    ensures { IfOk result (λ e. e ≡ stored (at_place (place_of (names_in scope.now) left.now.name) left.now.name)
        (cores (names_in scope.now) left.now.indices) new) }
{
    let indices = left.indices.as_slice();
    let mut e = new;
    let mut place = indices.len();
    'indices: while place > 0 {
        place -= 1;
        let index = expression(alloc, scope, &indices[place].kind)?;
        let map = read_at(alloc, scope, &left.name, &indices[..place])?;
        e = three(alloc, CoreOp::Write, map, index, e)?;
    }
    Ok(e)
}

/// What the left sides are to hold, by position.
fn all_stored_at(
    alloc: Global,
    scope: &Scope,
    lefts: &[Left],
    rights: &[Expr],
) -> Result<Items<CoreExpr>, NoMemory>
    ensures { IfOk result (λ list. list ≡ all_stored (names_in scope.now) lefts.now rights.now) }
{
    let mut list = Items::new(alloc);
    let mut place = 0;
    'sides: while place < lefts.len() && place < rights.len() {
        let new = expression(alloc, scope, &rights[place].kind)?;
        list.push(stored_at(alloc, scope, &lefts[place], new)?)?;
        place += 1;
    }
    Ok(list)
}

/// The spots of assigned variables.
fn targets(alloc: Global, scope: &Scope, lefts: &[Left]) -> Result<Items<Spot>, NoMemory>
    ensures { IfOk result (λ spots. spots ≡ map (λ l. spot_of (names_in scope.now) l.name) lefts.now) }
{
    let mut spots = Items::new(alloc);
    for left in lefts {
        spots.push(scope.target(&left.name))?;
    }
    Ok(spots)
}

/// An assignment, whose right sides are evaluated first.
pub(crate) fn assignment(
    alloc: Global,
    scope: &Scope,
    lefts: &[Left],
    rights: &[Expr],
) -> Result<CoreStmt, NoMemory>
    ensures { IfOk result (λ s. s ≡ Assignment (map (λ l. spot_of (names_in scope.now) l.name) lefts.now)
        (all_stored (names_in scope.now) lefts.now rights.now)) }
{
    let spots = targets(alloc, scope, lefts)?;
    Ok(CoreStmt::Assign(spots, all_stored_at(alloc, scope, lefts, rights)?))
}
