//! Lists of names that are looked up through a table.
ghost use Rattle.std.specs.Prelude.{◌≡◌, ◌++◌, IfOk, OnOk};
ghost use Rattle.sd_base.specs.FirstPlaces.{place_of};
ghost use Rattle.sd_base.specs.Names.{place_from};
ghost use Rattle.sd_base.specs.Value.{Text};
ghost use Rattle.sd_ast.specs.Tree.{names_of};
ghost use Rattle.sd_extract.specs.Names.{place_in};

use sd_base::{CloneOf, FirstPlaces, Name, NoMemory, Var};
use sd_core::Spot;
use sqlite_items::{Items, at};
use std::alloc::Global;
use std::marker::Model;

/// A list of names. The first of equal ones is found.
#[derive(Drop)]
pub(crate) struct NameTable {
    names: Items<Name>,
    places: FirstPlaces,
    ghost found: { (x : Text) → place_of places x ≡ place_from 0 names x },
}

impl Model for NameTable {
    ghost use Rattle.std.specs.Prelude.{List};
    ghost use Rattle.sd_base.specs.Value.{Text};

    ghost Value = { List Text };

    ghost view = { λ table. table.names };
}

impl NameTable {
    pub(crate) fn new(alloc: Global, names: Items<Name>) -> Result<NameTable, NoMemory>
        ensures { IfOk result (λ table. table ≡ names) }
    {
        let places = FirstPlaces::of_names(alloc, names.as_slice())?;
        Ok(NameTable { names, places })
    }

    /// The place of a name in the list.
    pub(crate) fn position(&self, name: &Name) -> Option<usize>
        ensures { result ≡ place_from 0 self.now name.now }
    {
        self.places.find(name)
    }

    /// The spot of a name, where these are the spots of the names.
    pub(crate) fn spot(&self, spots: &[Spot], name: &Name) -> Option<Spot>
        ensures { result ≡ place_in self.now spots.now name.now }
    {
        match self.position(name) {
            None => None,
            Some(place) => at(spots, place).copied(),
        }
    }
}

/// Puts the names of variables at the end of a list.
pub(crate) fn push_names(
    alloc: Global,
    names: &mut Items<Name>,
    vars: &[Var],
) -> Result<(), NoMemory>
    ensures { OnOk result (names.new ≡ names.old ++ names_of vars.now) }
{
    for var in vars {
        names.push(var.name.clone_of(alloc)?)?;
    }
    Ok(())
}
