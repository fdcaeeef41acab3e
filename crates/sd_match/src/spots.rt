//! The places in the states of a pair that are compared.
ghost use Rattle.std.specs.Prelude.{◌≡◌, ◌+◌, ◌&&◌, ◌++◌, [], ◌∷◌, ℕ, IfOk, OnOk, IsTrue, take, drop, slice_get};
ghost use Rattle.std.specs.List.{IsDistinct};
ghost use Rattle.sd_base.specs.Value.{Text, same_text};
ghost use Rattle.sd_core.specs.declared.Spot.TheVariants as spot;
ghost use Rattle.sd_core.specs.Formed.{names_of, same_sort};
ghost use Rattle.sd_core.specs.Failure as failure;
ghost use Rattle.sd_base.specs.FirstPlaces.{place_of};
ghost use Rattle.sd_base.specs.Names.{place_from};
ghost use Rattle.sd_match.specs.Pairs.{by_position, by_name, named_pair, shared_pair, shared_pairs, in_pairs, out_pairs};

use crate::pair::SpotPair;
use crate::shared::{partner, places_of};
use sd_base::{CloneOf, FirstPlaces, NoMemory, Sort, Var, is_same_sort};
use sd_core::{Shared, Spot};
use sqlite_items::{Items, at};
use std::alloc::Global;

// ---- numbers of slots

pub(crate) fn sum_of(a: usize, b: usize) -> Result<usize, NoMemory>
    ensures { IfOk result (λ sum. sum ≡ a + b) }
{
    match a.checked_add(b) {
        None => Err(NoMemory),
        Some(sum) => Ok(sum),
    }
}

/// The slot at this place, counted from a first one.
fn slot_at(first: usize, place: usize) -> Result<Spot, NoMemory>
    ensures { IfOk result (λ at. at ≡ spot.Slot (first + place)) }
{
    let slot = sum_of(first, place)?;
    if slot > u32::MAX as usize {
        return Err(NoMemory);
    }
    Ok(Spot::Slot(slot as u32))
}

/// The front of the variables, of this many where there are as many.
fn front(vars: &[Var], count: usize) -> &[Var]
    ensures { result.now ≡ take count vars.now }
{
    if count < vars.len() {
        &vars[..count]
    } else {
        vars
    }
}

/// The variables after that many.
fn rest(vars: &[Var], count: usize) -> &[Var]
    ensures { result.now ≡ drop count vars.now }
{
    if count < vars.len() {
        &vars[count..]
    } else {
        &vars[vars.len()..]
    }
}

// ---- parameters and locals

/// Pairs variables by position, where they stand in slots from these on.
fn put_by_position(
    alloc: Global,
    pairs: &mut Items<SpotPair>,
    i: usize,
    j: usize,
    olds: &[Var],
    news: &[Var],
) -> Result<(), NoMemory>
    ensures { OnOk result (pairs.new ≡ pairs.old ++ by_position i j olds.now news.now) }
{
    let count = olds.len().min(news.len());
    'vars: for place in 0..count {
        pairs.push(SpotPair {
            old: slot_at(i, place)?,
            new: slot_at(j, place)?,
            sort: olds[place].sort.clone_of(alloc)?,
        })?;
    }
    Ok(())
}

/// Whether each name stands at its own place, as it does where no two are one.
fn are_distinct(places: &FirstPlaces, vars: &[Var]) -> bool
    requires places { (f : Text) → place_of places.now f ≡ place_from 0 (names_of vars.now) f }
    ensures { IsTrue result → IsDistinct same_text (names_of vars.now) }
{
    'vars: for place in 0..vars.len() {
        if places.find(&vars[place].name) != Some(place) {
            return false;
        }
    }
    true
}

fn is_alike(old: &Var, new: &Var) -> bool
    ensures { result ≡ (same_text old.now.name new.now.name && same_sort old.now.sort new.now.sort) }
{
    if !old.name.is(&new.name) {
        return false;
    }
    is_same_sort(&old.sort, &new.sort)
}

/// The place of the first variable of this name and type.
fn first_alike(old: &Var, news: &[Var]) -> Option<usize>
    ensures { result ≡ failure.place_from 0 news.now old.now }
{
    'news: for place in 0..news.len() {
        if is_alike(old, &news[place]) {
            return Some(place);
        }
    }
    None
}

/// The same place, by the table where the names are distinct.
fn alike(places: &FirstPlaces, distinct: bool, old: &Var, news: &[Var]) -> Option<usize>
    requires places { (f : Text) → place_of places.now f ≡ place_from 0 (names_of news.now) f }
    requires distinct { IsTrue distinct → IsDistinct same_text (names_of news.now) }
    ensures { result ≡ failure.place_from 0 news.now old.now }
{
    if distinct {
        partner(places, old, news)
    } else {
        first_alike(old, news)
    }
}

/// Pairs the variable at a place with the one at the other, where there is one.
fn put_named(
    alloc: Global,
    pairs: &mut Items<SpotPair>,
    old: (usize, usize),
    first: usize,
    sort: &Sort,
    place: Option<usize>,
) -> Result<(), NoMemory>
    ensures { OnOk result (pairs.new ≡ pairs.old ++ named_pair (old.0 + old.1) first sort.now place) }
{
    match place {
        None => Ok(()),
        Some(place) => {
            pairs.push(SpotPair {
                old: slot_at(old.0, old.1)?,
                new: slot_at(first, place)?,
                sort: sort.clone_of(alloc)?,
            })?;
            Ok(())
        }
    }
}

/// Pairs each variable with the one of its name and type, where they stand in slots from these on.
fn put_by_name(
    alloc: Global,
    pairs: &mut Items<SpotPair>,
    i: usize,
    j: usize,
    olds: &[Var],
    news: &[Var],
) -> Result<(), NoMemory>
    ensures { OnOk result (pairs.new ≡ pairs.old ++ by_name i j olds.now news.now) }
{
    let places = places_of(alloc, news)?;
    let distinct = are_distinct(&places, news);
    'olds: for place in 0..olds.len() {
        let new = alike(&places, distinct, &olds[place], news);
        put_named(alloc, pairs, (i, place), j, &olds[place].sort, new)?;
    }
    Ok(())
}

/// Pairs in-parameters, so many of them by position and the others by name.
pub(crate) fn put_ins(
    alloc: Global,
    pairs: &mut Items<SpotPair>,
    a: usize,
    b: usize,
    olds: &[Var],
    news: &[Var],
) -> Result<(), NoMemory>
    ensures { OnOk result (pairs.new ≡ pairs.old ++ in_pairs a b olds.now news.now) }
{
    put_by_position(alloc, pairs, 0, 0, front(olds, a), front(news, b))?;
    put_by_name(alloc, pairs, a, b, rest(olds, a), rest(news, b))
}

/// The out-parameters of one procedure of a pair.
#[derive(Clone, Copy)]
pub(crate) struct Outs<'a> {
    /// The slot of the first.
    pub first: usize,
    /// How many are paired by position.
    pub fixed: usize,
    /// How many after them are paired by name.
    pub carried_count: usize,
    pub vars: &'a [Var],
}

/// Pairs out-parameters: by position, then by name, and the last ones by position again.
pub(crate) fn put_outs(
    alloc: Global,
    pairs: &mut Items<SpotPair>,
    old: Outs<'_>,
    new: Outs<'_>,
) -> Result<(), NoMemory>
    ensures { OnOk result
        (pairs.new ≡ pairs.old
        ++ out_pairs old.entry.first new.entry.first old.entry.fixed new.entry.fixed old.entry.carried_count new.entry.carried_count old.entry.vars.now new.entry.vars.now) }
{
    put_by_position(
        alloc,
        pairs,
        old.first,
        new.first,
        front(old.vars, old.fixed),
        front(new.vars, new.fixed),
    )?;
    put_by_name(
        alloc,
        pairs,
        sum_of(old.first, old.fixed)?,
        sum_of(new.first, new.fixed)?,
        front(rest(old.vars, old.fixed), old.carried_count),
        front(rest(new.vars, new.fixed), new.carried_count),
    )?;
    let a = sum_of(old.fixed, old.carried_count)?;
    let b = sum_of(new.fixed, new.carried_count)?;
    put_by_position(
        alloc,
        pairs,
        sum_of(old.first, a)?,
        sum_of(new.first, b)?,
        rest(old.vars, a),
        rest(new.vars, b),
    )
}

// ---- shared globals

fn put_shared_pair(
    alloc: Global,
    pairs: &mut Items<SpotPair>,
    globals: &[Var],
    shared: Shared,
) -> Result<(), NoMemory>
    ensures { OnOk result (pairs.new ≡ pairs.old ++ shared_pair shared (slice_get globals.now shared.old)) }
{
    match at(globals, shared.old as usize) {
        None => Ok(()),
        Some(global) => {
            pairs.push(SpotPair {
                old: Spot::Global(shared.old),
                new: Spot::Global(shared.new),
                sort: global.sort.clone_of(alloc)?,
            })?;
            Ok(())
        }
    }
}

/// Pairs shared globals.
pub(crate) fn put_shared(
    alloc: Global,
    pairs: &mut Items<SpotPair>,
    globals: &[Var],
    shared: &[Shared],
) -> Result<(), NoMemory>
    ensures { OnOk result (pairs.new ≡ pairs.old ++ shared_pairs globals.now shared.now) }
{
    'shared: for place in 0..shared.len() {
        put_shared_pair(alloc, pairs, globals, shared[place])?;
    }
    Ok(())
}
