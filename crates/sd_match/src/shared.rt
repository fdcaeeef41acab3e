ghost use Rattle.std.specs.Prelude.{◌≡◌, ◌<◌, length, IfOk, IfSome};
ghost use Rattle.std.specs.List.{IsDistinct};
ghost use Rattle.sd_base.specs.Value.{Text, same_text};
ghost use Rattle.sd_core.specs.Formed.{names_of};
ghost use Rattle.sd_core.specs.Failure.{shared_at, shared_of};
ghost use Rattle.sd_core.specs.Failure as failure;
ghost use Rattle.sd_base.specs.FirstPlaces.{place_of};
ghost use Rattle.sd_base.specs.Names.{place_from};

use sd_base::{FirstPlaces, NoMemory, Var, is_same_sort};
use sd_core::Shared;
use std::alloc::Global;

/// The places of these variables by their names.
pub(crate) fn places_of(alloc: Global, vars: &[Var]) -> Result<FirstPlaces, NoMemory>
    ensures { IfOk result (λ places. (f : Text) → place_of places f ≡ place_from 0 (names_of vars.now) f) }
{
    let mut places = FirstPlaces::new(alloc);
    let mut place = vars.len();
    'vars: while place > 0 {
        place -= 1;
        places.enter(alloc, &vars[place].name, place)?;
    }
    Ok(places)
}

/// The place of the new global that has the old one's name and type.
pub(crate) fn partner(places: &FirstPlaces, old: &Var, news: &[Var]) -> Option<usize>
    requires places { (f : Text) → place_of places.now f ≡ place_from 0 (names_of news.now) f }
    requires distinct { IsDistinct same_text (names_of news.now) }
    ensures place { result ≡ failure.place_from 0 news.now old.now }
    ensures within { IfSome result (λ i. i < length news.now) }
{
    match places.find(&old.name) {
        None => None,
        Some(place) => match news.get(place) {
            None => None,
            Some(new) => {
                if is_same_sort(&old.sort, &new.sort) {
                    Some(place)
                } else {
                    None
                }
            }
        },
    }
}

/// The globals that two programs declare with one name and type, in the order of the old program.
pub fn shared_globals(alloc: Global, olds: &[Var], news: &[Var]) -> Result<Vec<Shared>, NoMemory>
    requires { IsDistinct same_text (names_of news.now) }
    ensures { IfOk result (λ shared. shared.items ≡ shared_of olds.now news.now) }
{
    let places = places_of(alloc, news)?;
    let mut shared = Vec::new(alloc);
    if olds.len() > u32::MAX as usize || news.len() > u32::MAX as usize {
        return Err(NoMemory);
    }
    'olds: for place in 0..olds.len() {
        if let Some(new) = partner(&places, &olds[place], news) {
            shared.push(Shared {
                old: place as u32,
                new: new as u32,
            })?;
        }
    }
    Ok(shared)
}
