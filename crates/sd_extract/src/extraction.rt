//! The core program of a source program.
ghost use Rattle.std.specs.Prelude.{◌≡◌, IfOk};
ghost use Rattle.sd_extract.specs.Programs.{core_program};

use crate::callees::Callees;
use crate::declarations::{axioms_of, functions_of, globals_of, uniques_of};
use crate::program::procs_in;
use crate::routines::Routines;
use sd_base::{NoMemory, clone_items};
use sd_core::CoreProgram;
use sd_types::Typed;
use std::alloc::Global;

/// The core program of a source program: its procedures in text order, each followed by those of its loops.
pub fn extract(alloc: Global, typed: &Typed) -> Result<CoreProgram, NoMemory>
    ensures { IfOk result (λ core. core ≡ core_program typed.now) }
{
    let program = typed.program();
    let decls = program.decls.as_slice();
    let globals = globals_of(alloc, decls)?;
    let callees = Callees::new(alloc, Routines::new(alloc, program)?)?;
    let procs = procs_in(alloc, &callees, &globals)?;
    Ok(CoreProgram {
        procs,
        globals: clone_items(alloc, &globals.vars)?,
        functions: functions_of(alloc, decls)?,
        axioms: axioms_of(alloc, decls)?,
        uniques: uniques_of(alloc, decls)?,
    })
}
