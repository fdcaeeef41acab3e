//! The core procedures of a program.
ghost use Rattle.std.specs.Prelude.{◌≡◌, ◌+◌, ◌∷◌, ◌++◌, List, suc, IfOk, OnOk};
ghost use Rattle.sd_ast.specs.declared.tree.Decl.{Decl as Declaration};
ghost use Rattle.sd_meaning.specs.Inputs.{globals_in};
ghost use Rattle.sd_meaning.specs.Run.{kinds_of};
ghost use Rattle.sd_extract.specs.Extract.{source_of, procs_of, procs_from, counts_each};
ghost use Rattle.sd_extract.specs.Found.{routine_in};
ghost use Rattle.sd_extract.specs.Numbered.{program_of, number_of};
ghost use Rattle.sd_extract.specs.Sources.{AreGlobals};

use crate::callees::Callees;
use crate::modified::{modified_names, places_of, vars_of};
use crate::procedure::push_procs;
use crate::routine::{Routine, find_routine};
use crate::source::{Globals, Source};
use sd_ast::Decl;
use sd_base::NoMemory;
use sd_core::CoreProc;
use sqlite_items::Items;
use std::alloc::Global;

/// The core procedures of a procedure with this number. The next number comes back.
fn push_routine(
    alloc: Global,
    callees: &Callees,
    globals: &Globals,
    routine: &Routine,
    number: u32,
    out: &mut Items<CoreProc>,
) -> Result<u32, NoMemory>
    requires { AreGlobals globals.now }
    ensures out { OnOk result (out.new ≡ out.old ++ procs_of (program_of callees.now) (number_of callees.now)
        (source_of globals.now.vars number (routine_in routine.now))) }
    ensures next { IfOk result
        (λ next. next ≡ number + suc (counts_each (kinds_of (routine_in routine.now).body.stmts)).loops) }
{
    let names = modified_names(alloc, routine.declared.specs.as_slice())?;
    let source = Source {
        declared: routine.declared,
        head: routine.head,
        body: routine.body,
        number,
        globals,
        modifies: places_of(alloc, globals, names.as_slice())?,
        copied: vars_of(alloc, globals, names.as_slice())?,
    };
    let next = push_procs(alloc, callees, &source, out)?;
    Ok(next)
}

/// The core procedures of a declaration, where the next one has this number. The next number comes back.
fn push_decl(
    alloc: Global,
    callees: &Callees,
    globals: &Globals,
    decl: &Decl,
    number: u32,
    out: &mut Items<CoreProc>,
) -> Result<u32, NoMemory>
    requires globals { AreGlobals globals.now }
    requires vars { globals.now.vars ≡ globals_in (program_of callees.now).decls }
    ensures { IfOk result (λ next. (ds : List Declaration) → out.new ++ procs_from (program_of callees.now) next ds
        ≡ out.old ++ procs_from (program_of callees.now) number (decl.now ∷ ds)) }
{
    match decl {
        Decl::Procedure(proc) => match find_routine(&callees.routines, &proc.head.name) {
            None => Ok(number),
            Some(routine) => {
                let next = push_routine(alloc, callees, globals, &routine, number, out)?;
                Ok(next)
            }
        },
        _ => Ok(number),
    }
}

/// The core procedures of a program.
pub(crate) fn procs_in(
    alloc: Global,
    callees: &Callees,
    globals: &Globals,
) -> Result<Items<CoreProc>, NoMemory>
    requires globals { AreGlobals globals.now }
    requires vars { globals.now.vars ≡ globals_in (program_of callees.now).decls }
    ensures { IfOk result (λ procs. procs ≡ procs_from (program_of callees.now) 0 (program_of callees.now).decls) }
{
    let mut out = Items::new(alloc);
    let mut next = 0;
    for decl in callees.routines.decls {
        next = push_decl(alloc, callees, globals, decl, next, &mut out)?;
    }
    Ok(out)
}
