//! Where the names of a body are kept.
ghost use Rattle.std.specs.Prelude.{◌≡◌, IfOk};
ghost use Rattle.sd_extract.specs.Names.{place_of, at_place};
ghost use Rattle.sd_extract.specs.Extract.{spot_of};
ghost use Rattle.sd_extract.specs.Scopes.{names_in};

use crate::table::NameTable;
use sd_base::{CloneOf, Name, NoMemory};
use sd_core::{CoreExpr, Spot};
use std::alloc::Global;

/// The names of a body with their spots: its locals, and the globals now and at the entry.
#[derive(Clone, Copy, Drop)]
pub(crate) struct Scope<'a> {
    pub(crate) local_names: &'a NameTable,
    pub(crate) locals: &'a [Spot],
    pub(crate) global_names: &'a NameTable,
    pub(crate) globals: &'a [Spot],
    pub(crate) entry: &'a [Spot],
}

impl<'a> Scope<'a> {
    /// The spot of a variable.
    pub(crate) fn spot(&self, name: &Name) -> Option<Spot>
        ensures { result ≡ place_of (names_in self.now) name.now }
    {
        match self.local_names.spot(self.locals, name) {
            Some(spot) => Some(spot),
            None => self.global_names.spot(self.globals, name),
        }
    }

    /// The spot of an assigned variable.
    pub(crate) fn target(&self, name: &Name) -> Spot
        ensures { result ≡ spot_of (names_in self.now) name.now }
    {
        self.spot(name).unwrap_or(Spot::Slot(0))
    }

    /// A variable or a constant.
    pub(crate) fn named(&self, alloc: Global, name: &Name) -> Result<CoreExpr, NoMemory>
        ensures { IfOk result (λ e. e ≡ at_place (place_of (names_in self.now) name.now) name.now) }
    {
        match self.spot(name) {
            Some(spot) => Ok(CoreExpr::At(spot)),
            None => Ok(CoreExpr::Const(name.clone_of(alloc)?)),
        }
    }
}
