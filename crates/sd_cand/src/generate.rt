//! The candidates of pairs.
ghost use Rattle.std.specs.Prelude.{◌≡◌, ◌≤◌, ◌<◌, ◌^◌, ◌++◌, IfOk, OnOk, length};
ghost use Rattle.sd_cand.specs.Candidates.{equal_from, flag_candidates, output_candidates, candidates_of, all_candidates};

use crate::candidate::{Candidate, Claim, Relation};
use sd_base::NoMemory;
use sd_config::Settings;
use sd_core::CoreProgram;
use sd_match::{Pair, PairState, Pairs, SpotPair};
use sd_term::Kind;
use sqlite_items::Items;
use std::alloc::{AllocFailed, Global};
use thiserror::Error;

/// Why there are no candidates. There is no limit on their number yet, so that they are too many can't come.
#[derive(Debug, Drop, Error)]
pub enum CandError {
    #[error("out of memory")]
    NoMemory,
}

impl From<NoMemory> for CandError {
    ghost use Rattle.std.specs.Prelude.{◌≡◌};
    ghost use Rattle.sd_cand.specs.declared.generate.CandError.TheVariants.{NoMemory};

    ghost from_gives = { λ _ e. e ≡ NoMemory };

    fn from(_: NoMemory) -> CandError {
        CandError::NoMemory
    }
}

impl<T: Drop> From<AllocFailed<T>> for CandError {
    ghost use Rattle.std.specs.Prelude.{◌≡◌};
    ghost use Rattle.sd_cand.specs.declared.generate.CandError.TheVariants.{NoMemory};

    ghost from_gives = { λ _ e. e ≡ NoMemory };

    fn from(_: AllocFailed<T>) -> CandError {
        CandError::NoMemory
    }
}

/// Equality at a place.
fn equal_at(place: usize) -> Relation
    requires { place < 2 ^ 32 }
    ensures { result ≡ record { place = place; kind = Kind.Eq } }
{
    Relation {
        place: place as u32,
        kind: Kind::Eq,
    }
}

/// Equality at each of these places.
fn equal_places(alloc: Global, places: &[SpotPair]) -> Result<Items<Relation>, NoMemory>
    requires { length places.now ≤ 2 ^ 32 }
    ensures { IfOk result (λ relations. relations ≡ equal_from 0 places.now) }
{
    let mut relations = Items::new(alloc);
    'places: for place in 0..places.len() {
        relations.push(equal_at(place))?;
    }
    Ok(relations)
}

/// The candidate that claims the flag under these conditions.
fn flag(when: Items<Relation>) -> Candidate
    ensures { result ≡ record { when = when; claim = Claim.Flag } }
{
    Candidate {
        when,
        claim: Claim::Flag,
    }
}

/// Adds the candidates that claim the flag.
fn put_flags(
    alloc: Global,
    list: &mut Items<Candidate>,
    when: &Items<Relation>,
) -> Result<(), NoMemory>
    ensures { OnOk result (list.new ≡ list.old ++ flag_candidates when.now) }
{
    list.push(flag(Items::new(alloc)))?;
    if !when.is_empty() {
        list.push(flag(Items::from_slice(alloc, when.as_slice())?))?;
    }
    Ok(())
}

/// Adds the candidates that claim an output each.
fn put_outputs(
    alloc: Global,
    list: &mut Items<Candidate>,
    when: &Items<Relation>,
    outputs: &[SpotPair],
) -> Result<(), NoMemory>
    requires { length outputs.now ≤ 2 ^ 32 }
    ensures { OnOk result (list.new ≡ list.old ++ output_candidates when.now 0 outputs.now) }
{
    'outputs: for place in 0..outputs.len() {
        list.push(Candidate {
            when: Items::from_slice(alloc, when.as_slice())?,
            claim: Claim::Output(equal_at(place)),
        })?;
    }
    Ok(())
}

/// The candidates of a pair, in order: the new run fails only where the old one does, and equal inputs give equal
/// outputs (Lahiri and others 2013).
pub fn candidates_of(alloc: Global, pair: &Pair) -> Result<Items<Candidate>, NoMemory>
    ensures { IfOk result (λ list. list ≡ candidates_of pair.now) }
{
    let mut list = Items::new(alloc);
    if let PairState::Open = &pair.state {
        let inputs = pair.inputs.as_slice();
        let outputs = pair.outputs.as_slice();
        if inputs.len() > u32::MAX as usize || outputs.len() > u32::MAX as usize {
            return Err(NoMemory);
        }
        let when = equal_places(alloc, inputs)?;
        put_flags(alloc, &mut list, &when)?;
        put_outputs(alloc, &mut list, &when, outputs)?;
    }
    Ok(list)
}

/// The candidates of each pair of two programs.
///
/// # Errors
///
/// Out of memory alone.
pub fn candidates(
    alloc: Global,
    _old: &CoreProgram,
    _new: &CoreProgram,
    pairs: &Pairs,
    _settings: &Settings,
) -> Result<Vec<Items<Candidate>>, CandError>
    ensures { IfOk result (λ all. all.items ≡ all_candidates pairs.now) }
{
    let mut all = Vec::new(alloc);
    'pairs: for i in 0..pairs.len() {
        all.push(candidates_of(alloc, pairs.pair(i))?)?;
    }
    Ok(all)
}
