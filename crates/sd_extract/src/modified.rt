//! The globals that a procedure modifies.
ghost use Rattle.std.specs.Prelude.{◌≡◌, ◌∷◌, ◌++◌, [], IfOk, OnOk};
ghost use Rattle.std.specs.Option.{option_copied};
ghost use Rattle.std.specs.List.{filter_map};
ghost use Rattle.sd_base.specs.FirstPlaces.{place_of};
ghost use Rattle.sd_extract.specs.Extract as spec;
ghost use Rattle.sd_extract.specs.Extract.{index_in, var_in};
ghost use Rattle.sd_extract.specs.Modified.{HasSeen, with_new, all_new, specs_new};
ghost use Rattle.sd_extract.specs.Sources.{AreGlobals};

use crate::source::Globals;
use sd_ast::Spec;
use sd_base::{CloneOf, FirstPlaces, Name, NoMemory, Var};
use sqlite_items::{Items, at};
use std::alloc::Global;

/// Adds a name that isn't there.
fn push_new(
    alloc: Global,
    names: &mut Items<Name>,
    seen: &mut FirstPlaces,
    name: &Name,
) -> Result<(), NoMemory>
    requires { HasSeen (place_of seen.old) names.old }
    ensures names { OnOk result (names.new ≡ with_new names.old name.now) }
    ensures seen { OnOk result (HasSeen (place_of seen.new) names.new) }
{
    match seen.find(name) {
        Some(_) => Ok(()),
        None => {
            seen.enter(alloc, name, names.len())?;
            names.push(name.clone_of(alloc)?)?;
            Ok(())
        }
    }
}

/// Adds those names that aren't there.
fn push_all_new(
    alloc: Global,
    names: &mut Items<Name>,
    seen: &mut FirstPlaces,
    more: &[Name],
) -> Result<(), NoMemory>
    requires { HasSeen (place_of seen.old) names.old }
    ensures names { OnOk result (names.new ≡ all_new names.old more.now) }
    ensures seen { OnOk result (HasSeen (place_of seen.new) names.new) }
{
    for name in more {
        push_new(alloc, names, seen, name)?;
    }
    Ok(())
}

/// Adds the names of a clause that aren't there, if it is a `modifies`.
fn push_clause(
    alloc: Global,
    names: &mut Items<Name>,
    seen: &mut FirstPlaces,
    clause: &Spec,
) -> Result<(), NoMemory>
    requires { HasSeen (place_of seen.old) names.old }
    ensures names { OnOk result (names.new ≡ specs_new names.old (clause.now ∷ [])) }
    ensures seen { OnOk result (HasSeen (place_of seen.new) names.new) }
{
    match clause {
        Spec::Modifies(more) => push_all_new(alloc, names, seen, more.as_slice()),
        _ => Ok(()),
    }
}

/// The names of the `modifies` among clauses, in the order of their first mention.
pub(crate) fn modified_names(alloc: Global, clauses: &[Spec]) -> Result<Items<Name>, NoMemory>
    ensures { IfOk result (λ names. names ≡ spec.modified_names clauses.now []) }
{
    let mut names = Items::new(alloc);
    let mut seen = FirstPlaces::new(alloc);
    for clause in clauses {
        push_clause(alloc, &mut names, &mut seen, clause)?;
    }
    Ok(names)
}

/// The place of a global.
fn global_place(globals: &Globals, name: &Name) -> Option<usize>
    requires { AreGlobals globals.now }
    ensures { result ≡ index_in globals.now.vars name.now }
{
    globals.names.position(name)
}

/// The global of a name.
fn global_var<'a>(globals: &'a Globals, name: &Name) -> Option<&'a Var>
    requires { AreGlobals globals.now }
    ensures { option_copied result ≡ var_in globals.now.vars name.now }
{
    match global_place(globals, name) {
        None => None,
        Some(place) => at(globals.vars.as_slice(), place),
    }
}

fn push_place(globals: &Globals, name: &Name, out: &mut Items<u32>) -> Result<(), NoMemory>
    requires { AreGlobals globals.now }
    ensures { OnOk result (out.new ≡ out.old ++ filter_map (index_in globals.now.vars) (name.now ∷ [])) }
{
    let Some(place) = global_place(globals, name) else {
        return Ok(());
    };
    let Ok(place) = u32::try_from(place) else {
        return Err(NoMemory);
    };
    out.push(place)?;
    Ok(())
}

/// The places of globals.
pub(crate) fn places_of(
    alloc: Global,
    globals: &Globals,
    names: &[Name],
) -> Result<Items<u32>, NoMemory>
    requires { AreGlobals globals.now }
    ensures { IfOk result (λ places. places ≡ filter_map (index_in globals.now.vars) names.now) }
{
    let mut out = Items::new(alloc);
    for name in names {
        push_place(globals, name, &mut out)?;
    }
    Ok(out)
}

fn push_var(
    alloc: Global,
    globals: &Globals,
    name: &Name,
    out: &mut Items<Var>,
) -> Result<(), NoMemory>
    requires { AreGlobals globals.now }
    ensures { OnOk result (out.new ≡ out.old ++ filter_map (var_in globals.now.vars) (name.now ∷ [])) }
{
    let Some(var) = global_var(globals, name) else {
        return Ok(());
    };
    out.push(var.clone_of(alloc)?)?;
    Ok(())
}

/// Globals by their names.
pub(crate) fn vars_of(
    alloc: Global,
    globals: &Globals,
    names: &[Name],
) -> Result<Items<Var>, NoMemory>
    requires { AreGlobals globals.now }
    ensures { IfOk result (λ vars. vars ≡ filter_map (var_in globals.now.vars) names.now) }
{
    let mut out = Items::new(alloc);
    for name in names {
        push_var(alloc, globals, name, &mut out)?;
    }
    Ok(out)
}
