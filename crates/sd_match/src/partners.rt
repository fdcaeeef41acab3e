//! The partners of procedures and loops.
ghost use Rattle.std.specs.Prelude.{◌≡◌, ◌+◌, ◌^◌, ◌<◌, ◌&&◌, IfOk, OnOk, Some, None, is_none, get_or, length, map, slice_get, take, if◌then◌else◌};
ghost use Rattle.sd_base.specs.FirstPlaces.{place_of};
ghost use Rattle.sd_base.specs.Value.{Text, same_text};
ghost use Rattle.sd_core.specs.Formed.{WellFormed};
ghost use Rattle.sd_match.specs.Pairs.{same_sorts, same_types, root_from, is_loop_of, loop_at, loop_partner_at, partner};

use sd_base::{FirstPlaces, Name, NoMemory, Var, is_same_sort};
use sd_core::{CoreProc, CoreProgram};
use sqlite_items::at;
use std::alloc::Global;

/// The number at this place, where there is one.
pub(crate) fn number_at(numbers: &[Option<u32>], place: u32) -> Option<u32>
    ensures { result ≡ get_or numbers.now place None }
{
    match at(numbers, place as usize) {
        None => None,
        Some(number) => *number,
    }
}

// ---- types

fn have_same_sorts(olds: &[Var], news: &[Var]) -> bool
    ensures { result ≡ same_sorts olds.now news.now }
{
    if olds.len() != news.len() {
        return false;
    }
    'vars: for place in 0..olds.len() {
        if !is_same_sort(&olds[place].sort, &news[place].sort) {
            return false;
        }
    }
    true
}

/// Whether the parameters have the same types.
pub(crate) fn have_same_types(old: &CoreProc, new: &CoreProc) -> bool
    ensures { result ≡ same_types old.now new.now }
{
    have_same_sorts(old.ins.as_slice(), new.ins.as_slice())
        && have_same_sorts(old.outs.as_slice(), new.outs.as_slice())
}

// ---- procedures of the text

fn put_root(
    alloc: Global,
    places: &mut FirstPlaces,
    proc: &CoreProc,
    place: usize,
) -> Result<(), NoMemory>
    ensures { OnOk result
        ((f : Text)
        → place_of places.new f ≡ (if is_none proc.now.parent && same_text f proc.now.name then Some place
        else place_of places.old f)) }
{
    if proc.parent.is_some() {
        return Ok(());
    }
    places.enter(alloc, &proc.name, place)?;
    Ok(())
}

/// The places of the procedures of the text by their names.
fn roots_of(alloc: Global, procs: &[CoreProc]) -> Result<FirstPlaces, NoMemory>
    ensures { IfOk result (λ places. (f : Text) → place_of places f ≡ root_from 0 procs.now f) }
{
    let mut places = FirstPlaces::new(alloc);
    let mut place = procs.len();
    'procs: while place > 0 {
        place -= 1;
        put_root(alloc, &mut places, &procs[place], place)?;
    }
    Ok(places)
}

fn root_named(procs: &[CoreProc], roots: &FirstPlaces, name: &Name) -> Option<u32>
    requires small { length procs.now < 2 ^ 32 }
    requires roots { (f : Text) → place_of roots.now f ≡ root_from 0 procs.now f }
    ensures { result ≡ root_from 0 procs.now name.now }
{
    match roots.find(name) {
        None => None,
        Some(place) => Some(place as u32),
    }
}

// ---- loops

fn is_loop_of(root: u32, number: u32, parent: Option<(u32, u32)>) -> bool
    ensures { result ≡ is_loop_of root number parent }
{
    match parent {
        None => false,
        Some((q, k)) => q == root && k == number,
    }
}

fn loop_at(procs: &[CoreProc], root: u32, number: u32) -> Option<u32>
    requires { length procs.now < 2 ^ 32 }
    ensures { result ≡ loop_at procs.now root number (slice_get procs.now (root + number)) }
{
    let place = root as usize + number as usize;
    match at(procs, place) {
        None => None,
        Some(proc) => {
            if is_loop_of(root, number, proc.parent) {
                Some(place as u32)
            } else {
                None
            }
        }
    }
}

/// The partner of a loop of this procedure, whose own partner stands at this place.
fn loop_partner(
    new: &CoreProgram,
    root: &CoreProc,
    number: u32,
    partner: Option<u32>,
) -> Option<u32>
    requires { length new.now.procs < 2 ^ 32 }
    ensures { result ≡ loop_partner_at new.now root.now number partner }
{
    match partner {
        None => None,
        Some(place) => match new.procs.get(place as usize) {
            None => None,
            Some(other) => {
                if have_same_types(root, other) {
                    loop_at(new.procs.as_slice(), place, number)
                } else {
                    None
                }
            }
        },
    }
}

// ---- partners

/// The partner of the procedure at this place, where those before it have theirs.
fn partner_after(
    old: &CoreProgram,
    new: &CoreProgram,
    roots: &FirstPlaces,
    partners: &[Option<u32>],
    proc: &CoreProc,
) -> Option<u32>
    requires formed { WellFormed old.now }
    requires small { length new.now.procs < 2 ^ 32 }
    requires roots { (f : Text) → place_of roots.now f ≡ root_from 0 new.now.procs f }
    requires partners { partners.now ≡ map (partner old.now new.now) (take (length partners.now) old.now.procs) }
    requires proc { slice_get old.now.procs (length partners.now) ≡ Some proc.now }
    ensures { result ≡ partner old.now new.now proc.now }
{
    match proc.parent {
        None => root_named(new.procs.as_slice(), roots, &proc.name),
        Some((place, number)) => match old.procs.get(place as usize) {
            None => None,
            Some(root) => loop_partner(new, root, number, number_at(partners, place)),
        },
    }
}

/// The partner of each procedure and loop of a program in the other one.
pub(crate) fn partners_of(
    alloc: Global,
    old: &CoreProgram,
    new: &CoreProgram,
) -> Result<Vec<Option<u32>>, NoMemory>
    requires formed { WellFormed old.now }
    requires small { length new.now.procs < 2 ^ 32 }
    ensures { IfOk result (λ partners. partners.items ≡ map (partner old.now new.now) old.now.procs) }
{
    let roots = roots_of(alloc, new.procs.as_slice())?;
    let procs = old.procs.as_slice();
    let mut partners = Vec::new(alloc);
    'procs: for place in 0..procs.len() {
        let partner = partner_after(old, new, &roots, partners.as_slice(), &procs[place]);
        partners.push(partner)?;
    }
    Ok(partners)
}
