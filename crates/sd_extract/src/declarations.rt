//! Globals, functions, constants and axioms.
ghost use Rattle.std.specs.Prelude.{◌≡◌, ◌∷◌, ◌++◌, [], map, true, IfOk, OnOk};
ghost use Rattle.sd_ast.specs.Tree.{names_of};
ghost use Rattle.sd_meaning.specs.Inputs.{globals_in, uniques_in, constants_of_sort};
ghost use Rattle.sd_extract.specs.Extract.{globals_from};
ghost use Rattle.sd_extract.specs.Programs.{constants_named, functions_in, axioms_in, no_names, core_axiom};
ghost use Rattle.sd_extract.specs.Scopes.{names_in};
ghost use Rattle.sd_extract.specs.Sources.{AreGlobals};

use crate::counts::add;
use crate::expression::expression;
use crate::scope::Scope;
use crate::source::Globals;
use crate::table::{NameTable, push_names};
use sd_ast::Decl;
use sd_base::{CloneOf, Name, NoMemory, Sort, Var, clone_items};
use sd_core::{CoreExpr, Function, Spot};
use sqlite_items::Items;
use std::alloc::Global;

// ---- globals

fn push_globals(alloc: Global, decl: &Decl, out: &mut Items<Var>) -> Result<(), NoMemory>
    ensures { OnOk result (out.new ≡ out.old ++ globals_in (decl.now ∷ [])) }
{
    match decl {
        Decl::Globals(vars) => {
            out.append(clone_items(alloc, vars)?)?;
            Ok(())
        }
        _ => Ok(()),
    }
}

fn all_globals(alloc: Global, decls: &[Decl]) -> Result<Items<Var>, NoMemory>
    ensures { IfOk result (λ vars. vars ≡ globals_in decls.now) }
{
    let mut out = Items::new(alloc);
    for decl in decls {
        push_globals(alloc, decl, &mut out)?;
    }
    Ok(out)
}

fn global_spots(alloc: Global, vars: &[Var]) -> Result<Items<Spot>, NoMemory>
    ensures { IfOk result (λ spots. spots ≡ globals_from 0 vars.now) }
{
    let mut spots = Items::new(alloc);
    let mut place = 0;
    for _var in vars {
        spots.push(Spot::Global(place))?;
        place = add(place, 1)?;
    }
    Ok(spots)
}

/// The globals of a program.
pub(crate) fn globals_of(alloc: Global, decls: &[Decl]) -> Result<Globals, NoMemory>
    ensures vars { IfOk result (λ globals. globals.vars ≡ globals_in decls.now) }
    ensures globals { IfOk result AreGlobals }
{
    let vars = all_globals(alloc, decls)?;
    let mut list = Items::new(alloc);
    push_names(alloc, &mut list, vars.as_slice())?;
    let names = NameTable::new(alloc, list)?;
    let spots = global_spots(alloc, vars.as_slice())?;
    Ok(Globals { vars, names, spots })
}

// ---- functions and constants

fn push_constants(
    alloc: Global,
    names: &[Name],
    sort: &Sort,
    out: &mut Items<Function>,
) -> Result<(), NoMemory>
    ensures { OnOk result (out.new ≡ out.old ++ constants_named names.now sort.now) }
{
    for name in names {
        out.push(Function {
            name: name.clone_of(alloc)?,
            args: Items::new(alloc),
            result: sort.clone_of(alloc)?,
            constant: true,
        })?;
    }
    Ok(())
}

fn push_functions(alloc: Global, decl: &Decl, out: &mut Items<Function>) -> Result<(), NoMemory>
    ensures { OnOk result (out.new ≡ out.old ++ functions_in (decl.now ∷ [])) }
{
    match decl {
        Decl::Function { name, args, result } => {
            out.push(Function {
                name: name.clone_of(alloc)?,
                args: clone_items(alloc, args)?,
                result: result.clone_of(alloc)?,
                constant: false,
            })?;
            Ok(())
        }
        Decl::Const { names, sort, .. } => push_constants(alloc, names.as_slice(), sort, out),
        _ => Ok(()),
    }
}

/// The functions and constants of a program.
pub(crate) fn functions_of(alloc: Global, decls: &[Decl]) -> Result<Items<Function>, NoMemory>
    ensures { IfOk result (λ functions. functions ≡ functions_in decls.now) }
{
    let mut out = Items::new(alloc);
    for decl in decls {
        push_functions(alloc, decl, &mut out)?;
    }
    Ok(out)
}

// ---- unique constants

fn push_sorted(
    alloc: Global,
    names: &[Name],
    sort: &Sort,
    out: &mut Items<Var>,
) -> Result<(), NoMemory>
    ensures { OnOk result (out.new ≡ out.old ++ constants_of_sort names.now sort.now) }
{
    for name in names {
        out.push(Var {
            name: name.clone_of(alloc)?,
            sort: sort.clone_of(alloc)?,
        })?;
    }
    Ok(())
}

fn push_uniques(alloc: Global, decl: &Decl, out: &mut Items<Var>) -> Result<(), NoMemory>
    ensures { OnOk result (out.new ≡ out.old ++ uniques_in (decl.now ∷ [])) }
{
    match decl {
        Decl::Const {
            unique,
            names,
            sort,
        } => {
            if !*unique {
                return Ok(());
            }
            push_sorted(alloc, names.as_slice(), sort, out)
        }
        _ => Ok(()),
    }
}

/// The unique constants of a program.
pub(crate) fn uniques_of(alloc: Global, decls: &[Decl]) -> Result<Items<Var>, NoMemory>
    ensures { IfOk result (λ uniques. uniques ≡ uniques_in decls.now) }
{
    let mut out = Items::new(alloc);
    for decl in decls {
        push_uniques(alloc, decl, &mut out)?;
    }
    Ok(out)
}

// ---- axioms

fn push_axioms(
    alloc: Global,
    nothing: &Scope,
    decl: &Decl,
    out: &mut Items<CoreExpr>,
) -> Result<(), NoMemory>
    requires { names_in nothing.now ≡ no_names }
    ensures { OnOk result (out.new ≡ out.old ++ map core_axiom (axioms_in (decl.now ∷ []))) }
{
    match decl {
        Decl::Axiom(e) => {
            out.push(expression(alloc, nothing, &e.kind)?)?;
            Ok(())
        }
        _ => Ok(()),
    }
}

fn all_axioms(alloc: Global, nothing: &Scope, decls: &[Decl]) -> Result<Items<CoreExpr>, NoMemory>
    requires { names_in nothing.now ≡ no_names }
    ensures { IfOk result (λ axioms. axioms ≡ map core_axiom (axioms_in decls.now)) }
{
    let mut out = Items::new(alloc);
    for decl in decls {
        push_axioms(alloc, nothing, decl, &mut out)?;
    }
    Ok(out)
}

/// The axioms of a program. They name no variables.
pub(crate) fn axioms_of(alloc: Global, decls: &[Decl]) -> Result<Items<CoreExpr>, NoMemory>
    ensures { IfOk result (λ axioms. axioms ≡ map core_axiom (axioms_in decls.now)) }
{
    let names = NameTable::new(alloc, Items::new(alloc))?;
    let spots = Items::new(alloc);
    let nothing = Scope {
        local_names: &names,
        locals: spots.as_slice(),
        global_names: &names,
        globals: spots.as_slice(),
        entry: spots.as_slice(),
    };
    all_axioms(alloc, &nothing, decls)
}
