ghost use Rattle.std.specs.Prelude.{◌≡◌, IfOk};
ghost use Rattle.std.specs.Option.{option_copied};
ghost use Rattle.sd_base.specs.Value.{Text};
ghost use Rattle.sd_base.specs.FirstPlaces.{place_of};
ghost use Rattle.sd_base.specs.Names.{place_from};
ghost use Rattle.sd_match.specs.Places.{proc_names, proc_named};

use sd_base::{FirstPlaces, Name, NoMemory};
use sd_core::CoreProc;
use std::alloc::Global;

/// The procedures of a program, which are found by their names through a table.
#[derive(Drop)]
pub struct Procedures<'a> {
    pub procs: &'a [CoreProc],
    places: FirstPlaces,
    ghost found: { (f : Text) → place_of places f ≡ place_from 0 (proc_names procs.now) f },
}

impl<'a> Procedures<'a> {
    /// The table of a program's procedures.
    pub fn new(alloc: Global, procs: &'a [CoreProc]) -> Result<Procedures<'a>, NoMemory>
        ensures { IfOk result (λ procedures. procedures.procs.now ≡ procs.now) }
    {
        let mut places = FirstPlaces::new(alloc);
        let mut place = procs.len();
        'procs: while place > 0 {
            place -= 1;
            places.enter(alloc, &procs[place].name, place)?;
        }
        Ok(Procedures { procs, places })
    }

    /// The procedure of this name.
    pub fn named(&self, name: &Name) -> Option<&'a CoreProc>
        ensures { option_copied result ≡ proc_named self.now.procs.now name.now }
    {
        match self.places.find(name) {
            None => None,
            Some(place) => match self.procs.get(place) {
                None => None,
                Some(proc) => Some(proc),
            },
        }
    }
}
