//! What the spots of a body hold.
ghost use Rattle.std.specs.Prelude.{◌≡◌, ◌<◌, IfOk, OnOk, length, slice_set};
ghost use Rattle.sd_core.specs.declared.Spot.TheVariants.{Slot};
ghost use Rattle.sd_core.specs.Store.{read, write};
ghost use Rattle.sd_term.specs.Build.{Extends};
ghost use Rattle.sd_vcgen.specs.Body.{constant, nothing};
ghost use Rattle.sd_vcgen.specs.Numbers.{Denotes, AreWithin, numbers_of, number_at, store_of};

use sd_base::NoMemory;
use sd_core::Spot;
use sd_term::{Bank, Head, Op, TermId};
use sqlite_items::Items;

/// The terms that the slots of a procedure and the globals hold.
#[derive(Drop)]
pub(crate) struct Spots {
    pub(crate) slots: Items<TermId>,
    pub(crate) globals: Items<TermId>,
}

pub(crate) fn put_truth(bank: &mut Bank, value: bool) -> Result<TermId, NoMemory>
    ensures term { IfOk result (λ id. Denotes bank.new id (constant value)) }
    ensures kept { OnOk result (Extends bank.old bank.new) }
{
    let op = if value { Op::True } else { Op::False };
    bank.put_tree(Head::Op(op), &[])
}

/// What stands at a spot, or `false` where there is no such spot.
pub(crate) fn put_spot(bank: &mut Bank, spots: &Spots, spot: Spot) -> Result<TermId, NoMemory>
    requires { AreWithin bank.old spots.now }
    ensures term { IfOk result (λ id. Denotes bank.new id (read nothing (store_of bank.old spots.now) spot)) }
    ensures kept { OnOk result (Extends bank.old bank.new) }
{
    match number_at(spots, spot) {
        Some(term) => Ok(term),
        None => put_truth(bank, false),
    }
}

/// What a slot holds, or `false` where there is no such slot.
pub(crate) fn put_slot(bank: &mut Bank, spots: &Spots, place: usize) -> Result<TermId, NoMemory>
    requires { AreWithin bank.old spots.now }
    ensures term { IfOk result (λ id. Denotes bank.new id (read nothing (store_of bank.old spots.now) (Slot place))) }
    ensures kept { OnOk result (Extends bank.old bank.new) }
{
    match spots.slots.get(place) {
        Some(term) => Ok(*term),
        None => put_truth(bank, false),
    }
}

fn number_at(spots: &Spots, spot: Spot) -> Option<TermId>
    ensures { result ≡ number_at (numbers_of spots.now) spot }
{
    match spot {
        Spot::Slot(place) => spots.slots.get(place as usize).copied(),
        Spot::Global(place) => spots.globals.get(place as usize).copied(),
    }
}

/// A spot holds a term from here on, where there is such a spot.
pub(crate) fn hold(spots: &mut Spots, spot: Spot, term: TermId)
    ensures { numbers_of spots.new ≡ write (numbers_of spots.old) spot term }
{
    match spot {
        Spot::Slot(place) => set_at(&mut spots.slots, place as usize, term),
        Spot::Global(place) => set_at(&mut spots.globals, place as usize, term),
    }
}

pub(crate) fn set_at(terms: &mut Items<TermId>, place: usize, term: TermId)
    ensures { terms.new ≡ slice_set terms.old place term }
{
    if place < terms.len() {
        terms.set(place, term);
    }
}
