//! The procedures of a program by their names, with their numbers.
ghost use Rattle.std.specs.Prelude.{◌≡◌, unwrap_or, IfOk};
ghost use Rattle.std.specs.Option.{option_copied};
ghost use Rattle.std.specs.HashMap.{get};
ghost use Rattle.sd_base.specs.Value.{Text, same_text};
ghost use Rattle.sd_meaning.specs.Routine.{procedure_in};
ghost use Rattle.sd_extract.specs.Extract.{number_from};

use crate::numbering::enter_number;
use crate::routines::Routines;
use sd_ast::Proc;
use sd_base::{Name, NoMemory};
use std::alloc::Global;
use std::collections::HashMap;

/// The procedures of a program with the numbers of their core procedures.
#[derive(Drop)]
pub(crate) struct Callees<'a> {
    pub(crate) routines: Routines<'a>,
    numbers: HashMap<Name, u32>,
    total: u32,
    ghost found: { (f : Text) → unwrap_or (get same_text numbers f) total
        ≡ number_from (record { decls = routines.decls.now }) 0 routines.decls.now f },
}

impl<'a> Callees<'a> {
    /// Numbers the procedures of a program.
    pub(crate) fn new(alloc: Global, routines: Routines<'a>) -> Result<Callees<'a>, NoMemory>
        ensures { IfOk result (λ callees. callees.routines.decls.now ≡ routines.entry.decls.now) }
    {
        let mut numbers = HashMap::new(alloc);
        let mut next = 0;
        for decl in routines.decls {
            next = enter_number(alloc, &routines, decl, next, &mut numbers)?;
        }
        Ok(Callees {
            routines,
            numbers,
            total: next,
        })
    }

    /// The procedure of this name.
    pub(crate) fn named(&self, name: &Name) -> Option<&'a Proc>
        ensures { option_copied result ≡ procedure_in self.now.routines.decls.now name.now }
    {
        self.routines.procedure(name)
    }

    /// The number of the procedure of this name.
    pub(crate) fn number(&self, name: &Name) -> u32
        ensures { result ≡ number_from (record { decls = self.now.routines.decls.now }) 0
            self.now.routines.decls.now name.now }
    {
        self.numbers.get(name).copied().unwrap_or(self.total)
    }
}
