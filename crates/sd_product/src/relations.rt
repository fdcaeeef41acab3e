//! Relations between two states as terms.
ghost use Rattle.std.specs.Prelude.{◌≡◌, ◌<◌, ◌++◌, All, IfOk, OnOk, length, map, slice_get};
ghost use Rattle.sd_core.specs.Store.{read};
ghost use Rattle.sd_term.specs.Bank.{tree_at};
ghost use Rattle.sd_term.specs.Build.{Extends, or_of, relation_of};
ghost use Rattle.sd_vcgen.specs.Body.{constant, nothing};
ghost use Rattle.sd_vcgen.specs.Numbers.{Denotes, number_at};
ghost use Rattle.sd_product.specs.Relations.{term_of, claim_term};
ghost use Rattle.sd_product.specs.Query.{under};
ghost use Rattle.sd_product.specs.Numbers.{Adds, AreWithin, IsEndWithin, numbers_of, store_at};

use sd_base::NoMemory;
use sd_cand::{Claim, Relation};
use sd_core::Spot;
use sd_match::SpotPair;
use sd_term::{Bank, Head, Kind, Op, TermId};
use sqlite_items::Items;

/// The terms of a state: of in-parameters, of the out-parameters whose slots follow theirs, and of all globals.
#[derive(Clone, Copy)]
pub(crate) struct StateTerms<'a> {
    pub(crate) ins: &'a [TermId],
    pub(crate) outs: &'a [TermId],
    pub(crate) globals: &'a [TermId],
}

/// The terms of the state that a run ends in, and of its flag.
#[derive(Clone, Copy)]
pub(crate) struct EndTerms<'a> {
    pub(crate) state: StateTerms<'a>,
    pub(crate) flag: TermId,
}

// ---- spots

fn slot(state: &StateTerms<'_>, place: usize) -> Option<TermId>
    ensures { result ≡ slice_get (state.now.ins.now ++ state.now.outs.now) place }
{
    if place < state.ins.len() {
        return state.ins.get(place).copied();
    }
    state.outs.get(place - state.ins.len()).copied()
}

fn number_at(state: &StateTerms<'_>, spot: Spot) -> Option<TermId>
    ensures { result ≡ number_at (numbers_of state.now) spot }
{
    match spot {
        Spot::Slot(place) => slot(state, place as usize),
        Spot::Global(place) => state.globals.get(place as usize).copied(),
    }
}

pub(crate) fn put_truth(bank: &mut Bank, value: bool) -> Result<TermId, NoMemory>
    ensures term { IfOk result (λ id. Denotes bank.new id (constant value)) }
    ensures kept { OnOk result (Extends bank.old bank.new) }
{
    let op = if value { Op::True } else { Op::False };
    bank.put_tree(Head::Op(op), &[])
}

/// What stands at a spot, or `false` where there is no such spot.
fn put_spot(bank: &mut Bank, state: &StateTerms<'_>, spot: Spot) -> Result<TermId, NoMemory>
    requires { AreWithin bank.old state.now }
    ensures term { IfOk result (λ id. Denotes bank.new id (read nothing (store_at bank.old state.now) spot)) }
    ensures kept { OnOk result (Extends bank.old bank.new) }
{
    match number_at(state, spot) {
        Some(term) => Ok(term),
        None => put_truth(bank, false),
    }
}

// ---- relations

fn put_related(
    bank: &mut Bank,
    kind: Kind,
    spots: &SpotPair,
    old: &StateTerms<'_>,
    new: &StateTerms<'_>,
) -> Result<TermId, NoMemory>
    requires old { AreWithin bank.old old.now }
    requires new { AreWithin bank.old new.now }
    ensures term { IfOk result (λ id. Denotes bank.new id
        (relation_of kind (read nothing (store_at bank.old old.now) spots.now.old)
        (read nothing (store_at bank.old new.now) spots.now.new))) }
    ensures kept { OnOk result (Extends bank.old bank.new) }
{
    let left = put_spot(bank, old, spots.old)?;
    let right = put_spot(bank, new, spots.new)?;
    let id = bank.relation(kind, left, right)?;
    Ok(id)
}

/// A relation between an old and a new state, or `true` where there is no such place.
pub(crate) fn put_relation(
    bank: &mut Bank,
    places: &[SpotPair],
    old: &StateTerms<'_>,
    new: &StateTerms<'_>,
    relation: Relation,
) -> Result<TermId, NoMemory>
    requires old { AreWithin bank.old old.now }
    requires new { AreWithin bank.old new.now }
    ensures term { IfOk result (λ id. Denotes bank.new id
        (term_of places.now (store_at bank.old old.now) (store_at bank.old new.now) relation)) }
    ensures kept { OnOk result (Extends bank.old bank.new) }
{
    match places.get(relation.place as usize) {
        Some(spots) => put_related(bank, relation.kind, spots, old, new),
        None => put_truth(bank, true),
    }
}

/// Adds the relations, one by one.
pub(crate) fn put_relations(
    bank: &mut Bank,
    facts: &mut Items<TermId>,
    places: &[SpotPair],
    old: &StateTerms<'_>,
    new: &StateTerms<'_>,
    relations: &[Relation],
) -> Result<(), NoMemory>
    requires facts { All (λ id. id < length bank.old) facts.old }
    requires old { AreWithin bank.old old.now }
    requires new { AreWithin bank.old new.now }
    ensures { OnOk result (Adds bank.old facts.old bank.new facts.new
        (map (term_of places.now (store_at bank.old old.now) (store_at bank.old new.now)) relations.now)) }
{
    for relation in relations {
        let term = put_relation(bank, places, old, new, *relation)?;
        facts.push(term)?;
    }
    Ok(())
}

/// The claim where all these relations hold.
pub(crate) fn put_under(
    bank: &mut Bank,
    places: &[SpotPair],
    old: &StateTerms<'_>,
    new: &StateTerms<'_>,
    when: &[Relation],
    claim: TermId,
) -> Result<TermId, NoMemory>
    requires old { AreWithin bank.old old.now }
    requires new { AreWithin bank.old new.now }
    requires claim { claim < length bank.old }
    ensures term { IfOk result (λ id. Denotes bank.new id
        (under (map (term_of places.now (store_at bank.old old.now) (store_at bank.old new.now)) when.now)
        (tree_at bank.old claim))) }
    ensures kept { OnOk result (Extends bank.old bank.new) }
{
    let mut term = claim;
    let mut left = when.len();
    while left > 0 {
        left -= 1;
        let condition = put_relation(bank, places, old, new, when[left])?;
        let claimed = bank.implies(condition, term)?;
        term = claimed;
    }
    Ok(term)
}

// ---- claims

fn put_output_claim(
    bank: &mut Bank,
    places: &[SpotPair],
    relation: Relation,
    old: &EndTerms<'_>,
    new: &EndTerms<'_>,
) -> Result<TermId, NoMemory>
    requires old { IsEndWithin bank.old old.now }
    requires new { IsEndWithin bank.old new.now }
    ensures term { IfOk result (λ id. Denotes bank.new id
        (or_of (or_of (tree_at bank.old old.now.flag) (tree_at bank.old new.now.flag))
        (term_of places.now (store_at bank.old old.now.state) (store_at bank.old new.now.state) relation))) }
    ensures kept { OnOk result (Extends bank.old bank.new) }
{
    let related = put_relation(bank, places, &old.state, &new.state, relation)?;
    let failed = bank.or(old.flag, new.flag)?;
    let id = bank.or(failed, related)?;
    Ok(id)
}

/// What a candidate claims of two ends.
pub(crate) fn put_claim(
    bank: &mut Bank,
    places: &[SpotPair],
    claim: Claim,
    old: &EndTerms<'_>,
    new: &EndTerms<'_>,
) -> Result<TermId, NoMemory>
    requires old { IsEndWithin bank.old old.now }
    requires new { IsEndWithin bank.old new.now }
    ensures term { IfOk result (λ id. Denotes bank.new id
        (claim_term places.now claim (store_at bank.old old.now.state) (tree_at bank.old old.now.flag)
        (store_at bank.old new.now.state) (tree_at bank.old new.now.flag))) }
    ensures kept { OnOk result (Extends bank.old bank.new) }
{
    match claim {
        Claim::Flag => bank.implies(new.flag, old.flag),
        Claim::Output(relation) => put_output_claim(bank, places, relation, old, new),
    }
}
