//! Names that statements assign.
ghost use Rattle.std.specs.Prelude.{◌≡◌, IfOk};
ghost use Rattle.std.specs.Option.{option_copied};
ghost use Rattle.sd_types.specs.declared.scope.Site.TheVariants as spot;
ghost use Rattle.sd_types.specs.Names.{is_among};
ghost use Rattle.sd_types.specs.Answer.{Answers, each, all_of};
ghost use Rattle.sd_types.specs.Scopes.{context};
ghost use Rattle.sd_types.specs.Statements.{routine_of, distinct, targets, assigned_as, assignable, indexed, left_sort, left_names, typed_indices, modified_rule, is_global};

use crate::phrase::{given_args, select, sort_named};
use crate::refusal::{TypeError, not_modified, read_only, unknown};
use crate::scope::{Frame, Given, Nature, Scope, Site, Variable, find_variable};
use crate::table::{NameList, Table};
use sd_ast::Left;
use sd_base::{CloneOf, Name, NoMemory, Place, Sort};
use sqlite_items::Items;
use std::alloc::Global;

/// Sees that no name stands twice.
pub(crate) fn check_distinct(alloc: Global, names: &Items<Name>) -> Result<(), TypeError>
    ensures { Answers (distinct names.now) result }
{
    let mut seen = NameList::new(alloc);
    seen.add_all(alloc, names)
}

/// The types of assigned variables. They count as phrases at the place of the statement.
pub(crate) fn given_targets(
    alloc: Global,
    scope: &Scope,
    locals: &Table<Variable>,
    at: Place,
    names: &Items<Name>,
) -> Result<Items<Given>, TypeError>
    ensures { Answers (targets (context scope.now locals.now spot.Body) at names.now) result }
{
    let mut given = Items::new(alloc);
    for name in names.as_slice() {
        let sort = sort_named(alloc, name, find_variable(scope, locals, Site::Body, name))?;
        given.push(Given { at, sort })?;
    }
    Ok(given)
}

/// Sees that a variable of this nature may be assigned.
fn check_nature(
    alloc: Global,
    modifies: &NameList,
    name: &Name,
    nature: Nature,
) -> Result<(), TypeError>
    ensures { Answers (assigned_as (is_among modifies.now) name.now nature) result }
{
    match nature {
        Nature::Constant => read_only(alloc, name),
        Nature::Input => read_only(alloc, name),
        Nature::Global => {
            if modifies.has(name) {
                Ok(())
            } else {
                not_modified(alloc, name)
            }
        }
        Nature::Output => Ok(()),
        Nature::Local => Ok(()),
    }
}

/// Sees that a variable may be assigned.
fn check_assignable(alloc: Global, frame: &Frame<'_>, name: &Name) -> Result<(), TypeError>
    ensures { Answers (assignable (routine_of frame.now) name.now) result }
{
    match find_variable(frame.scope, frame.locals, Site::Body, name) {
        Some(variable) => check_nature(alloc, frame.modifies, name, variable.nature),
        None => unknown(alloc, name),
    }
}

/// Sees that each of the variables may be assigned.
pub(crate) fn check_all_assignable(
    alloc: Global,
    frame: &Frame<'_>,
    names: &Items<Name>,
) -> Result<(), TypeError>
    ensures { Answers (each (assignable (routine_of frame.now)) names.now) result }
{
    for name in names.as_slice() {
        check_assignable(alloc, frame, name)?;
    }
    Ok(())
}

/// Whether a variable is a global.
pub(crate) fn is_global_variable(variable: Option<&Variable>) -> bool
    ensures { result ≡ is_global (option_copied variable.entry) }
{
    match variable {
        Some(variable) => matches!(variable.nature, Nature::Global),
        None => false,
    }
}

/// Sees that a global which a callee modifies is in the caller's `modifies`.
fn check_modified(alloc: Global, frame: &Frame<'_>, name: &Name) -> Result<(), TypeError>
    ensures { Answers (modified_rule (routine_of frame.now) name.now) result }
{
    if is_global_variable(frame.scope.globals.get(name)) {
        if frame.modifies.has(name) {
            Ok(())
        } else {
            not_modified(alloc, name)
        }
    } else {
        Ok(())
    }
}

/// The same for each of the names in the callee's `modifies`.
pub(crate) fn check_all_modified(
    alloc: Global,
    frame: &Frame<'_>,
    names: &Items<Name>,
) -> Result<(), TypeError>
    ensures { Answers (each (modified_rule (routine_of frame.now)) names.now) result }
{
    for name in names.as_slice() {
        check_modified(alloc, frame, name)?;
    }
    Ok(())
}

// ---- left sides

/// The names of the left sides.
pub(crate) fn names_of_lefts(alloc: Global, lefts: &Items<Left>) -> Result<Items<Name>, NoMemory>
    ensures { IfOk result (λ names. names ≡ left_names lefts.now) }
{
    let mut names = Items::new(alloc);
    for left in lefts.as_slice() {
        names.push(left.name.clone_of(alloc)?)?;
    }
    Ok(names)
}

/// Sees that the indices of the left sides have types.
pub(crate) fn check_indices(
    alloc: Global,
    scope: &Scope,
    locals: &Table<Variable>,
    lefts: &Items<Left>,
) -> Result<(), TypeError>
    ensures { Answers (each (typed_indices (context scope.now locals.now spot.Body)) lefts.now) result }
{
    for left in lefts.as_slice() {
        given_args(alloc, scope, locals, Site::Body, &left.indices)?;
    }
    Ok(())
}

/// The type of what stands in a variable of this type at these indices.
fn sort_at(at: Place, sort: Sort, indices: &Items<Given>) -> Result<Sort, TypeError>
    ensures { result ≡ indexed at sort indices.now }
{
    let mut inside = sort;
    for index in indices.as_slice() {
        inside = select(at, inside, index)?;
    }
    Ok(inside)
}

/// The type of what a left side names.
fn sort_of_left(
    alloc: Global,
    scope: &Scope,
    locals: &Table<Variable>,
    at: Place,
    left: &Left,
) -> Result<Sort, TypeError>
    ensures { Answers (left_sort (context scope.now locals.now spot.Body) at left.now) result }
{
    let variable = find_variable(scope, locals, Site::Body, &left.name);
    let sort = sort_named(alloc, &left.name, variable)?;
    let indices = given_args(alloc, scope, locals, Site::Body, &left.indices)?;
    sort_at(at, sort, &indices)
}

/// The types of what the left sides name.
pub(crate) fn sorts_of_lefts(
    alloc: Global,
    scope: &Scope,
    locals: &Table<Variable>,
    at: Place,
    lefts: &Items<Left>,
) -> Result<Items<Sort>, TypeError>
    ensures { Answers (all_of (left_sort (context scope.now locals.now spot.Body) at) lefts.now) result }
{
    let mut sorts = Items::new(alloc);
    for left in lefts.as_slice() {
        let sort = sort_of_left(alloc, scope, locals, at, left)?;
        sorts.push(sort)?;
    }
    Ok(sorts)
}
