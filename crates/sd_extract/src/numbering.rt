//! The numbers of procedures: how many core procedures stand before each.
ghost use Rattle.std.specs.Prelude.{◌≡◌, ◌∷◌, List, Some, unwrap_or, IfOk, OnOk, if◌then◌else◌};
ghost use Rattle.std.specs.HashMap.{get};
ghost use Rattle.sd_base.specs.Value.{Text, same_text};
ghost use Rattle.sd_ast.specs.declared.tree.Decl.{Decl as Declaration};
ghost use Rattle.sd_extract.specs.Extract.{number_from};

use crate::counts::add;
use crate::routine::core_size;
use crate::routines::Routines;
use sd_ast::Decl;
use sd_base::{CloneOf, Name, NoMemory};
use std::alloc::Global;
use std::collections::HashMap;

/// Gives a name a number, unless it has one.
fn put_first(
    alloc: Global,
    numbers: &mut HashMap<Name, u32>,
    name: &Name,
    number: u32,
) -> Result<(), NoMemory>
    ensures { OnOk result ((f : Text) → get same_text numbers.new f
        ≡ (if same_text f name.now then Some (unwrap_or (get same_text numbers.old f) number) else get same_text
        numbers.old f)) }
{
    match numbers.get(name).copied() {
        Some(_) => Ok(()),
        None => {
            numbers.insert(name.clone_of(alloc)?, number)?;
            Ok(())
        }
    }
}

/// Enters a declaration with the next number, if it is a procedure. The number after it comes back.
pub(crate) fn enter_number(
    alloc: Global,
    routines: &Routines,
    decl: &Decl,
    next: u32,
    numbers: &mut HashMap<Name, u32>,
) -> Result<u32, NoMemory>
    ensures { IfOk result (λ after. (f : Text) (ds : List Declaration)
        → unwrap_or (get same_text numbers.new f)
        (number_from (record { decls = routines.now.decls.now }) after ds f)
        ≡ unwrap_or (get same_text numbers.old f)
        (number_from (record { decls = routines.now.decls.now }) next (decl.now ∷ ds) f)) }
{
    match decl {
        Decl::Procedure(proc) => {
            put_first(alloc, numbers, &proc.head.name, next)?;
            let size = core_size(routines, &proc.head.name)?;
            let after = add(next, size)?;
            Ok(after)
        }
        _ => Ok(next),
    }
}
