//! A procedure with its body.
ghost use Rattle.std.specs.Prelude.{◌≡◌, option_map, IfOk};
ghost use Rattle.sd_meaning.specs.Routine.{routine_named};
ghost use Rattle.sd_extract.specs.Extract.{size_of};
ghost use Rattle.sd_extract.specs.Found.{routine_in};

use crate::counts::{add, count_stmts};
use crate::routines::Routines;
use sd_ast::{Body, Head, Proc};
use sd_base::{Name, NoMemory};

/// A procedure with a body, which may stand in an implementation.
#[derive(Clone, Copy, Drop)]
pub(crate) struct Routine<'a> {
    pub(crate) declared: &'a Proc,
    pub(crate) head: &'a Head,
    pub(crate) body: &'a Body,
}

fn own_body<'a>(declared: &'a Proc) -> Option<Routine<'a>>
    ensures { option_map routine_in result ≡ option_map
        (λ b. record { declared = declared.now; head = declared.now.head; body = b }) declared.now.body }
{
    match &declared.body {
        None => None,
        Some(body) => Some(Routine {
            declared,
            head: &declared.head,
            body,
        }),
    }
}

/// The procedure of this name, if it has a body.
pub(crate) fn find_routine<'a>(routines: &Routines<'a>, name: &Name) -> Option<Routine<'a>>
    ensures { option_map routine_in result
        ≡ routine_named (record { decls = routines.now.decls.now }) name.now }
{
    let Some(declared) = routines.procedure(name) else {
        return None;
    };
    match routines.implementation(name) {
        Some(implementation) => Some(Routine {
            declared,
            head: &implementation.head,
            body: &implementation.body,
        }),
        None => own_body(declared),
    }
}

/// How many core procedures a procedure becomes.
pub(crate) fn core_size(routines: &Routines, name: &Name) -> Result<u32, NoMemory>
    ensures { IfOk result
        (λ n. n ≡ size_of (routine_named (record { decls = routines.now.decls.now }) name.now)) }
{
    match find_routine(routines, name) {
        None => Ok(0),
        Some(routine) => {
            let inside = count_stmts(routine.body.stmts.as_slice())?;
            add(1, inside.counts.loops)
        }
    }
}
