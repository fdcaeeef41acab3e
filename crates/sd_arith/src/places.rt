ghost use Rattle.std.specs.Prelude.{◌<◌, ◌^◌, All, IfOk, length};
ghost use Rattle.sd_kernel.specs.Facts.{trail_of};
ghost use Rattle.sd_arith.specs.Places.{HasPlaces};

use sd_base::NoMemory;
use sd_kernel::Fact;
use sd_term::Bank;
use sqlite_items::Items;
use std::alloc::Global;

/// The place of the first fact on each term.
pub(crate) fn first_places(
    alloc: Global,
    terms: &Bank,
    trail: &[Fact],
) -> Result<Items<Option<u32>>, NoMemory>
    requires below { All (λ f. f.term < length terms.now) trail.now }
    requires short { length trail.now < 2 ^ 32 }
    ensures { IfOk result (λ places. HasPlaces terms.now 0 (trail_of terms.now trail.now) places) }
{
    let mut places = Items::from_vec(vec![in alloc; None; terms.len() as usize]?);
    for k in (0..trail.len()).rev() {
        let fact = trail[k];
        places.set(fact.term.number() as usize, Some(k as u32));
    }
    Ok(places)
}
