//! What the live candidates say of calls.
ghost use Rattle.std.specs.Prelude.{◌≡◌, ℕ, ◌<◌, ◌≤◌, ◌+◌, ◌++◌, [], ◌∷◌, All, Some, IfOk, OnOk, IsTrue, ◌↔◌, length, map, get_or, None, slice_get, if◌then◌else◌};
ghost use Rattle.sd_match.specs.declared.pair.Pair.{Pair};
ghost use Rattle.sd_term.specs.Bank.{tree_at};
ghost use Rattle.sd_term.specs.Build.{Extends};
ghost use Rattle.sd_vcgen.specs.Numbers.{Denotes, IsSiteWithin, site_at};
ghost use Rattle.sd_product.specs.Query.{implication, is_live, calls_related, with_each, all_related};
ghost use Rattle.sd_product.specs.Numbers.{Adds};
ghost use Rattle.sd_product.specs.Claims.{claimed, claims_of, AreTables, IsPairOf};

use crate::relations::{EndTerms, StateTerms, put_claim, put_under};
use sd_base::NoMemory;
use sd_cand::{Candidate, LiveTable};
use sd_match::Pair;
use sd_term::{Bank, TermId};
use sd_vcgen::Site;
use sqlite_items::Items;

/// What is known of the pairs of two programs: the pairs, and the candidates of each, which are numbered through in
/// order.
#[derive(Clone, Copy)]
pub(crate) struct Claims<'a> {
    pub(crate) pairs: &'a [Pair],
    /// By pair.
    pub(crate) candidates: &'a [Items<Candidate>],
    /// By the place of an old procedure: its pair.
    pub(crate) pair_of_old: &'a [Option<u32>],
    /// By pair: the number of its first candidate.
    pub(crate) first: &'a [u32],
}

// ---- one candidate

fn call_inputs<'a>(site: &'a Site) -> StateTerms<'a>
    ensures ins { result.ins.now ≡ site.now.args }
    ensures outs { result.outs.now ≡ [] }
    ensures globals { result.globals.now ≡ site.now.before }
{
    StateTerms {
        ins: site.args.as_slice(),
        outs: &[],
        globals: site.before.as_slice(),
    }
}

fn call_ends<'a>(site: &'a Site) -> EndTerms<'a>
    ensures ins { result.state.ins.now ≡ site.now.args }
    ensures outs { result.state.outs.now ≡ site.now.outs }
    ensures globals { result.state.globals.now ≡ site.now.after }
    ensures flag { result.flag ≡ site.now.flag }
{
    EndTerms {
        state: StateTerms {
            ins: site.args.as_slice(),
            outs: site.outs.as_slice(),
            globals: site.after.as_slice(),
        },
        flag: site.flag,
    }
}

/// Two calls, and the pair of what they call.
#[derive(Clone, Copy)]
struct PairedCalls<'a> {
    pair: &'a Pair,
    old: &'a Site,
    new: &'a Site,
}

/// What a candidate says of two calls of its pair, where both count.
fn put_implication(
    bank: &mut Bank,
    pair: &Pair,
    candidate: &Candidate,
    old: &Site,
    new: &Site,
) -> Result<TermId, NoMemory>
    requires old { IsSiteWithin bank.old old.now }
    requires new { IsSiteWithin bank.old new.now }
    ensures term { IfOk result (λ id. Denotes bank.new id
        (implication (record { pair = pair.now; candidate = candidate.now }) (site_at bank.old old.now)
        (site_at bank.old new.now))) }
    ensures kept { OnOk result (Extends bank.old bank.new) }
{
    let claim = put_claim(
        bank,
        pair.outputs.as_slice(),
        candidate.claim,
        &call_ends(old),
        &call_ends(new),
    )?;
    let claimed = put_under(
        bank,
        pair.inputs.as_slice(),
        &call_inputs(old),
        &call_inputs(new),
        candidate.when.as_slice(),
        claim,
    )?;
    let where_new = bank.implies(new.guard, claimed)?;
    let id = bank.implies(old.guard, where_new)?;
    Ok(id)
}

/// Adds what the candidate of this number says, where it is live.
fn put_if_live(
    bank: &mut Bank,
    facts: &mut Items<TermId>,
    table: &LiveTable,
    number: u32,
    calls: &PairedCalls<'_>,
    candidate: &Candidate,
) -> Result<(), NoMemory>
    requires number { number < length table.now }
    requires facts { All (λ id. id < length bank.old) facts.old }
    requires old { IsSiteWithin bank.old calls.now.old.now }
    requires new { IsSiteWithin bank.old calls.now.new.now }
    ensures { OnOk result (Adds bank.old facts.old bank.new facts.new
        (if is_live table.now number then implication (record { pair = calls.now.pair.now; candidate = candidate.now })
        (site_at bank.old calls.now.old.now) (site_at bank.old calls.now.new.now) ∷ [] else [])) }
{
    if table.get(number) {
        let id = put_implication(bank, calls.pair, candidate, calls.old, calls.new)?;
        facts.push(id)?;
    }
    Ok(())
}

// ---- a pair of calls

/// Adds what the live candidates of the pair of the two callees say, where candidates are numbered from `first` on.
fn put_live(
    bank: &mut Bank,
    facts: &mut Items<TermId>,
    table: &LiveTable,
    first: u32,
    calls: &PairedCalls<'_>,
    candidates: &[Candidate],
) -> Result<(), NoMemory>
    requires numbers { first + length candidates.now ≤ length table.now }
    requires old_callee { calls.now.pair.now.old ≡ calls.now.old.now.callee }
    requires new_callee { calls.now.pair.now.new ≡ calls.now.new.now.callee }
    requires facts { All (λ id. id < length bank.old) facts.old }
    requires old { IsSiteWithin bank.old calls.now.old.now }
    requires new { IsSiteWithin bank.old calls.now.new.now }
    ensures { OnOk result (Adds bank.old facts.old bank.new facts.new
        (calls_related table.now first (claimed calls.now.pair.now candidates.now) (site_at bank.old calls.now.old.now)
        (site_at bank.old calls.now.new.now))) }
{
    let end = table.count();
    let mut number = first;
    for candidate in candidates {
        prove!(number < end);
        put_if_live(bank, facts, table, number, calls, candidate)?;
        number += 1;
    }
    Ok(())
}

/// Whether the pair at this place is that of the two procedures.
fn is_pair(pairs: &[Pair], place: u32, old: u32, new: u32) -> bool
    ensures { IsTrue result ↔ ((p : Pair) × (slice_get pairs.now place ≡ Some p) × (p.old ≡ old) × (p.new ≡ new)) }
{
    match pairs.get(place as usize) {
        Some(pair) => pair.old == old && pair.new == new,
        None => false,
    }
}

fn entry_of(table: &[Option<u32>], place: u32) -> Option<u32>
    ensures { result ≡ get_or table.now place None }
{
    match table.get(place as usize) {
        Some(entry) => *entry,
        None => None,
    }
}

/// The place of the pair of the two procedures.
fn pair_of(claims: &Claims<'_>, old: u32, new: u32) -> Option<u32>
    requires { AreTables claims.now }
    ensures { IsPairOf claims.now.pairs.now old new result }
{
    match entry_of(claims.pair_of_old, old) {
        Some(place) => {
            if is_pair(claims.pairs, place, old, new) {
                return Some(place);
            }
            None
        }
        None => None,
    }
}

/// Adds what the live candidates say of an old and a new call.
fn put_related(
    bank: &mut Bank,
    facts: &mut Items<TermId>,
    claims: &Claims<'_>,
    table: &LiveTable,
    old: &Site,
    new: &Site,
) -> Result<(), NoMemory>
    requires tables { AreTables claims.now }
    requires count { length table.now ≡ length (claims_of claims.now) }
    requires facts { All (λ id. id < length bank.old) facts.old }
    requires old { IsSiteWithin bank.old old.now }
    requires new { IsSiteWithin bank.old new.now }
    ensures { OnOk result (Adds bank.old facts.old bank.new facts.new
        (calls_related table.now 0 (claims_of claims.now) (site_at bank.old old.now) (site_at bank.old new.now))) }
{
    match pair_of(claims, old.callee, new.callee) {
        Some(place) => put_live(
            bank,
            facts,
            table,
            claims.first[place as usize],
            &PairedCalls {
                pair: &claims.pairs[place as usize],
                old,
                new,
            },
            claims.candidates[place as usize].as_slice(),
        ),
        None => Ok(()),
    }
}

// ---- all calls

fn put_with_each(
    bank: &mut Bank,
    facts: &mut Items<TermId>,
    claims: &Claims<'_>,
    table: &LiveTable,
    old: &Site,
    news: &[Site],
) -> Result<(), NoMemory>
    requires tables { AreTables claims.now }
    requires count { length table.now ≡ length (claims_of claims.now) }
    requires facts { All (λ id. id < length bank.old) facts.old }
    requires old { IsSiteWithin bank.old old.now }
    requires news { All (IsSiteWithin bank.old) news.now }
    ensures { OnOk result (Adds bank.old facts.old bank.new facts.new
        (with_each table.now (claims_of claims.now) (site_at bank.old old.now) (map (site_at bank.old) news.now))) }
{
    for new in news {
        put_related(bank, facts, claims, table, old, new)?;
    }
    Ok(())
}

/// Adds what the live candidates say of each old call with each new one.
pub(crate) fn put_all_related(
    bank: &mut Bank,
    facts: &mut Items<TermId>,
    claims: &Claims<'_>,
    table: &LiveTable,
    olds: &[Site],
    news: &[Site],
) -> Result<(), NoMemory>
    requires tables { AreTables claims.now }
    requires count { length table.now ≡ length (claims_of claims.now) }
    requires facts { All (λ id. id < length bank.old) facts.old }
    requires olds { All (IsSiteWithin bank.old) olds.now }
    requires news { All (IsSiteWithin bank.old) news.now }
    ensures { OnOk result (Adds bank.old facts.old bank.new facts.new
        (all_related table.now (claims_of claims.now) (map (site_at bank.old) olds.now)
        (map (site_at bank.old) news.now))) }
{
    for old in olds {
        put_with_each(bank, facts, claims, table, old, news)?;
    }
    Ok(())
}
