//! The first places of names in lists.
ghost use Rattle.std.specs.Prelude.{◌≡◌, None, Some, IfOk, OnOk, if◌then◌else◌};
ghost use Rattle.sd_base.specs.Value.{Text, same_text};
ghost use Rattle.sd_base.specs.Names.{place_from};

use crate::{CloneOf, Name, NoMemory};
use std::alloc::Global;
use std::collections::HashMap;

/// Names with their first places in a list.
#[derive(Drop)]
pub struct FirstPlaces {
    places: HashMap<Name, usize>,
}

impl FirstPlaces {
    ghost use Rattle.sd_base.specs.FirstPlaces.{place_of};

    /// A table without names.
    pub fn new(alloc: Global) -> FirstPlaces
        ensures { (x : Text) → place_of result x ≡ None }
    {
        FirstPlaces {
            places: HashMap::new(alloc),
        }
    }

    /// The table of a list of names.
    pub fn of_names(alloc: Global, names: &[Name]) -> Result<FirstPlaces, NoMemory>
        ensures { IfOk result (λ table. (x : Text) → place_of table x ≡ place_from 0 names.now x) }
    {
        let mut table = FirstPlaces::new(alloc);
        let mut place = names.len();
        'names: while place > 0 {
            place -= 1;
            table.enter(alloc, &names[place], place)?;
        }
        Ok(table)
    }

    /// Enters a name whose place comes before those of the names that are there.
    pub fn enter(&mut self, alloc: Global, name: &Name, place: usize) -> Result<(), NoMemory>
        ensures { OnOk result ((x : Text) →
            place_of self.new x ≡ (if same_text name.now x then Some place else place_of self.old x)) }
    {
        self.places.insert(name.clone_of(alloc)?, place)?;
        Ok(())
    }

    /// The first place of a name.
    pub fn find(&self, name: &Name) -> Option<usize>
        ensures { result ≡ place_of self.now name.now }
    {
        self.places.get(name).copied()
    }
}
