//! The procedures of a program with their bodies, which are found by their names through tables.
ghost use Rattle.std.specs.Prelude.{◌≡◌, IfOk, OnOk, Some, if◌then◌else◌};
ghost use Rattle.std.specs.List.{position_from};
ghost use Rattle.std.specs.Option.{option_copied};
ghost use Rattle.sd_base.specs.FirstPlaces.{place_of};
ghost use Rattle.sd_base.specs.Value.{Text};
ghost use Rattle.sd_meaning.specs.Routine.{procedure_in, implementation_in};
ghost use Rattle.sd_extract.specs.Places.{item_at, procedure_of, implementation_of, is_procedure_named};
ghost use Rattle.sd_extract.specs.Places.{is_implementation_named};

use sd_ast::{Decl, Impl, Proc, Program};
use sd_base::{FirstPlaces, Name, NoMemory};
use sqlite_items::at;
use std::alloc::Global;

/// The procedures and implementations of a program.
#[derive(Drop)]
pub(crate) struct Routines<'a> {
    pub(crate) decls: &'a [Decl],
    procedures: FirstPlaces,
    implementations: FirstPlaces,
    ghost procedures_found: { (f : Text)
        → place_of procedures f ≡ position_from (is_procedure_named f) 0 decls.now },
    ghost implementations_found: { (f : Text)
        → place_of implementations f ≡ position_from (is_implementation_named f) 0 decls.now },
}

/// Enters a declaration's place under its name, if it is a procedure or an implementation.
fn enter(
    alloc: Global,
    procedures: &mut FirstPlaces,
    implementations: &mut FirstPlaces,
    decl: &Decl,
    place: usize,
) -> Result<(), NoMemory>
    ensures procedures { OnOk result ((f : Text) → place_of procedures.new f
        ≡ (if is_procedure_named f decl.now then Some place else place_of procedures.old f)) }
    ensures implementations { OnOk result ((f : Text) → place_of implementations.new f
        ≡ (if is_implementation_named f decl.now then Some place else place_of implementations.old f)) }
{
    match decl {
        Decl::Procedure(proc) => procedures.enter(alloc, &proc.head.name, place),
        Decl::Implementation(implementation) => {
            implementations.enter(alloc, &implementation.head.name, place)
        }
        _ => Ok(()),
    }
}

/// The declaration whose place a table has under this name.
fn decl_at<'a>(decls: &'a [Decl], places: &FirstPlaces, name: &Name) -> Option<&'a Decl>
    ensures { option_copied result ≡ item_at decls.now (place_of places.now name.now) }
{
    match places.find(name) {
        None => None,
        Some(place) => at(decls, place),
    }
}

/// The procedure that a declaration is, if it is one.
fn procedure_of(decl: Option<&Decl>) -> Option<&Proc>
    ensures { option_copied result ≡ procedure_of (option_copied decl.entry) }
{
    match decl {
        Some(Decl::Procedure(proc)) => Some(proc),
        _ => None,
    }
}

/// The implementation that a declaration is, if it is one.
fn implementation_of(decl: Option<&Decl>) -> Option<&Impl>
    ensures { option_copied result ≡ implementation_of (option_copied decl.entry) }
{
    match decl {
        Some(Decl::Implementation(implementation)) => Some(implementation),
        _ => None,
    }
}

impl<'a> Routines<'a> {
    /// The tables of a program's procedures and implementations, of which the first one of a name counts.
    pub(crate) fn new(alloc: Global, program: &'a Program) -> Result<Routines<'a>, NoMemory>
        ensures { IfOk result (λ routines. routines.decls.now ≡ program.now.decls) }
    {
        let decls = program.decls.as_slice();
        let mut procedures = FirstPlaces::new(alloc);
        let mut implementations = FirstPlaces::new(alloc);
        let mut place = decls.len();
        'decls: while place > 0 {
            place -= 1;
            enter(
                alloc,
                &mut procedures,
                &mut implementations,
                &decls[place],
                place,
            )?;
        }
        Ok(Routines {
            decls,
            procedures,
            implementations,
        })
    }

    /// The procedure of this name.
    pub(crate) fn procedure(&self, name: &Name) -> Option<&'a Proc>
        ensures { option_copied result ≡ procedure_in self.now.decls.now name.now }
    {
        procedure_of(decl_at(self.decls, &self.procedures, name))
    }

    /// The implementation of this name.
    pub(crate) fn implementation(&self, name: &Name) -> Option<&'a Impl>
        ensures { option_copied result ≡ implementation_in self.now.decls.now name.now }
    {
        implementation_of(decl_at(self.decls, &self.implementations, name))
    }
}
