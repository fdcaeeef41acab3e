//! What is said of pairs, from the table of live candidates.
ghost use Rattle.std.specs.Prelude.{◌≡◌, ◌≤◌, ◌+◌, ◌++◌, IfOk, OnOk, length, drop, map, if◌then◌else◌};
ghost use Rattle.std.specs.Option.{option_copied};
ghost use Rattle.sd_product.specs.Work.{pairs_in, claims_in};
ghost use Rattle.sd_run.specs.Verdicts.{is_flag, flag_live, said, state_of, verdict_by, verdict_of, verdicts_of};
ghost use Rattle.sd_run.specs.declared.verdict.VerdictState.TheVariants.{Safe};

use crate::verdict::{Otherwise, PairVerdict, VerdictState};
use sd_base::{CloneOf, NoMemory};
use sd_cand::{Candidate, Claim, LiveTable};
use sd_core::CoreProc;
use sd_match::{Pair, PairState};
use sd_product::Work;
use std::alloc::Global;

fn is_flag(claim: Claim) -> bool
    ensures { result ≡ is_flag claim }
{
    match claim {
        Claim::Flag => true,
        Claim::Output(_) => false,
    }
}

/// Whether one of these candidates claims the flag and is live. They are numbered from `first` on.
fn is_flag_live(candidates: &[Candidate], table: &LiveTable, first: u32) -> bool
    requires { first + length candidates.now ≤ length table.now }
    ensures { result ≡ flag_live candidates.now (drop first table.now) }
{
    let end = table.count();
    let mut number = first;
    for candidate in candidates {
        prove!(number < end);
        if is_flag(candidate.claim) && table.get(number) {
            return true;
        }
        number += 1;
    }
    false
}

/// What is said of a pair that isn't refused.
fn open_state(live: bool, otherwise: Otherwise) -> VerdictState
    ensures { result ≡ (if live then Safe else said otherwise) }
{
    if live {
        return VerdictState::Safe;
    }
    match otherwise {
        Otherwise::Unknown => VerdictState::Unknown,
        Otherwise::Unproved => VerdictState::Unproved,
    }
}

/// A pair, whether a claim on its flags is live, and what is said of it where none is.
#[derive(Drop)]
struct Judged<'a> {
    pair: &'a Pair,
    live: bool,
    otherwise: Otherwise,
}

/// What is said of a pair, by whether a claim on its flags is live.
fn state_of(alloc: Global, judged: &Judged<'_>) -> Result<VerdictState, NoMemory>
    ensures { IfOk result (λ state. state ≡ state_of judged.now.otherwise judged.now.pair.now.state judged.now.live) }
{
    match &judged.pair.state {
        PairState::Open => Ok(open_state(judged.live, judged.otherwise)),
        PairState::Signature => Ok(VerdictState::Signature),
        PairState::UnmatchedRecursion(callee) => {
            Ok(VerdictState::UnmatchedRecursion(callee.clone_of(alloc)?))
        }
    }
}

/// Adds the verdict of two procedures, unless they are loops.
fn put_found(
    alloc: Global,
    verdicts: &mut Vec<PairVerdict>,
    judged: &Judged<'_>,
    old: Option<&CoreProc>,
    new: Option<&CoreProc>,
) -> Result<(), NoMemory>
    ensures { OnOk result (verdicts.new.items ≡ verdicts.old.items
        ++ verdict_by judged.now.otherwise judged.now.pair.now judged.now.live
        (option_copied old.entry) (option_copied new.entry)) }
{
    let Some(old) = old else {
        return Ok(());
    };
    let Some(new) = new else {
        return Ok(());
    };
    if old.parent.is_none() {
        verdicts.push(PairVerdict {
            old: old.name.clone_of(alloc)?,
            new: new.name.clone_of(alloc)?,
            state: state_of(alloc, judged)?,
            equal: false,
        })?;
    }
    Ok(())
}

/// Adds the verdict of a pair of procedures.
fn put_verdict(
    alloc: Global,
    verdicts: &mut Vec<PairVerdict>,
    work: &Work,
    judged: &Judged<'_>,
) -> Result<(), NoMemory>
    ensures { OnOk result (verdicts.new.items ≡ verdicts.old.items
        ++ verdict_of judged.now.otherwise work.now judged.now.pair.now judged.now.live) }
{
    let old = work.old_program().procs.get(judged.pair.old as usize);
    let new = work.new_program().procs.get(judged.pair.new as usize);
    put_found(alloc, verdicts, judged, old, new)
}

/// The verdict of each pair of procedures, from the table of all candidates.
pub fn verdicts_of(
    alloc: Global,
    work: &Work,
    table: &LiveTable,
    otherwise: Otherwise,
) -> Result<Vec<PairVerdict>, NoMemory>
    requires { length table.now ≡ length (claims_in work.now) }
    ensures { IfOk result (λ verdicts. verdicts.items ≡ verdicts_of otherwise work.now (pairs_in work.now) table.now) }
{
    let pairs = work.pairs();
    let end = table.count();
    let mut verdicts = Vec::new(alloc);
    let mut first = 0;
    'pairs: for place in 0..pairs.len() {
        let candidates = work.candidates_of(place);
        let live = is_flag_live(candidates, table, first);
        let pair = pairs.pair(place);
        let judged = Judged {
            pair,
            live,
            otherwise,
        };
        put_verdict(alloc, &mut verdicts, work, &judged)?;
        prove!(candidates.len() <= (end - first) as usize);
        first += candidates.len() as u32;
    }
    Ok(verdicts)
}
