ghost use Rattle.std.specs.Prelude.{◌≡◌, ◌<◌, ◌≤◌, ◌+◌, ℕ, true, false, IfOk, OnOk, IsTrue, MatchBool, Some, length, slice_get};
ghost use Rattle.sd_product.specs.Bodies.{IsAbout, count_before};
ghost use Rattle.sd_product.specs.Work.{claims_in, pairs_in, queries_of};
ghost use Rattle.sd_rounds.specs.Settled.{AreAllSweeps, AreSweeps, IsInductive, IsSettled};
ghost use Rattle.sd_rounds.specs.Sweep.{AreDead, GoesOn, IsFinding, IsWholeSweep, SweepsOn, finding_of};

use sd_base::NoMemory;
use sd_cand::LiveTable;
use sd_kernel::{How, Proof, Proved};
use sd_product::{PairBodies, Work};
use sd_search::{Outcome, refute};
use sd_term::Cube;
use std::alloc::Global;

/// Why a candidate was dropped.
#[derive(Drop)]
pub enum Cause {
    /// Truth values of terms under which the facts of its query are true, and no rule is broken.
    Open(Cube),
    /// So many cubes were closed, and don't cover everything.
    Spent(u32),
}

/// A candidate that was dropped, with the words of the table that were seen when it was judged.
#[derive(Drop)]
pub struct Death {
    pub candidate: u32,
    pub seen: Vec<u64>,
    pub cause: Cause,
}

/// The candidates that stay, each with its proof, and those that were dropped, in the order of their deaths.
#[derive(Drop)]
pub struct Settled {
    pub table: LiveTable,
    pub deaths: Vec<Death>,
    pub proofs: Vec<Proved>,
    /// How many sweeps there were, the last of which dropped nothing.
    pub sweeps: u32,
}

// ---- one candidate

/// What judging a candidate finds.
#[derive(Drop)]
enum Finding {
    Proved(Proof),
    Dropped(Cause),
}

/// What a search with so many leaves tells of a candidate.
fn finding_of(outcome: Outcome, leaves: u32) -> Finding
    ensures { result ≡ finding_of leaves outcome }
{
    match outcome {
        Outcome::Refuted(proof) => Finding::Proved(proof),
        Outcome::Open(cube) => Finding::Dropped(Cause::Open(cube)),
        Outcome::Spent(_) => Finding::Dropped(Cause::Spent(leaves)),
    }
}

/// Looks for a proof of the query of one of a pair's candidates under the table, over the bodies of the pair.
fn judge(
    alloc: Global,
    work: &Work,
    bodies: &PairBodies<'_>,
    table: &LiveTable,
    candidate: u32,
    leaves: u32,
) -> Result<Finding, NoMemory>
    requires leaves { 1 ≤ leaves }
    requires bodies { bodies.now.work ≡ work.now }
    requires about { IsAbout work.now candidate bodies.now.pair }
    requires size { length table.now ≡ length (claims_in work.now) }
    ensures { IfOk result (IsFinding leaves (queries_of work.now table.now) candidate) }
{
    let query = bodies.query(alloc, table, candidate)?;
    let outcome = refute(alloc, &query, leaves)?;
    Ok(finding_of(outcome, leaves))
}

/// Judges one of a pair's candidates, if it is live, and drops it, if its query isn't refuted. True where it was
/// dropped.
fn visit(
    alloc: Global,
    work: &Work,
    bodies: &PairBodies<'_>,
    settled: &mut Settled,
    candidate: u32,
    leaves: u32,
) -> Result<bool, NoMemory>
    requires leaves { 1 ≤ leaves }
    requires bodies { bodies.now.work ≡ work.now }
    requires within { candidate < length (claims_in work.now) }
    requires about { IsAbout work.now candidate bodies.now.pair }
    requires dead { AreDead leaves work.now settled.old.table settled.old.deaths.items }
    ensures dead { OnOk result (AreDead leaves work.now settled.new.table settled.new.deaths.items) }
    ensures sweeps { settled.new.sweeps ≡ settled.old.sweeps }
    ensures dropped { IfOk result (λ dropped. MatchBool dropped
        (length settled.new.deaths.items ≡ length settled.old.deaths.items + 1)
        (GoesOn work.now candidate (candidate + 1) settled.old.table settled.new.table settled.old.deaths.items
        settled.new.deaths.items settled.old.proofs.items settled.new.proofs.items)) }
    ensures swept { OnOk result (SweepsOn work.now candidate (candidate + 1) settled.old.table settled.new.table
        settled.old.deaths.items settled.new.deaths.items) }
{
    if !settled.table.get(candidate) {
        return Ok(false);
    }
    match judge(alloc, work, bodies, &settled.table, candidate, leaves)? {
        Finding::Proved(proof) => {
            settled.proofs.push(Proved {
                candidate,
                how: How::Steps(proof),
            })?;
            Ok(false)
        }
        Finding::Dropped(cause) => {
            let seen = settled.table.words(alloc)?;
            settled.deaths.push(Death {
                candidate,
                seen,
                cause,
            })?;
            settled.table.clear(candidate);
            Ok(true)
        }
    }
}

// ---- one pair

/// Whether one of the candidates from `first` on and before `end` is live.
fn any_live(table: &LiveTable, first: u32, end: u32) -> bool
    requires { end ≤ length table.now }
    ensures live { IsTrue result → (c : ℕ) × (first ≤ c) × (c < end) × (slice_get table.now c ≡ Some true) }
    ensures none { result ≡ false → (c : ℕ) → first ≤ c → c < end → slice_get table.now c ≡ Some false }
{
    'numbers: for candidate in first..end {
        if table.get(candidate) {
            return true;
        }
    }
    false
}

/// Judges the live candidates of a pair in ascending order, each under the table as it stands then. The bodies of the
/// pair are turned into terms once, and where no candidate is live they aren't. True where one was dropped; else the
/// proofs of the live ones follow those of the pairs before.
fn sweep_pair(
    alloc: Global,
    work: &Work,
    settled: &mut Settled,
    pair: u32,
    leaves: u32,
) -> Result<bool, NoMemory>
    requires leaves { 1 ≤ leaves }
    requires pair { pair < length (pairs_in work.now) }
    requires dead { AreDead leaves work.now settled.old.table settled.old.deaths.items }
    ensures dead { OnOk result (AreDead leaves work.now settled.new.table settled.new.deaths.items) }
    ensures sweeps { settled.new.sweeps ≡ settled.old.sweeps }
    ensures dropped { IfOk result (λ dropped. MatchBool dropped
        (length settled.old.deaths.items < length settled.new.deaths.items)
        (GoesOn work.now (count_before work.now pair) (count_before work.now (pair + 1)) settled.old.table
        settled.new.table settled.old.deaths.items settled.new.deaths.items settled.old.proofs.items
        settled.new.proofs.items)) }
    ensures grown { OnOk result (length settled.old.deaths.items ≤ length settled.new.deaths.items) }
    ensures swept { OnOk result (SweepsOn work.now (count_before work.now pair) (count_before work.now (pair + 1))
        settled.old.table settled.new.table settled.old.deaths.items settled.new.deaths.items) }
{
    let (first, end) = work.numbers_of(pair);
    if !any_live(&settled.table, first, end) {
        return Ok(false);
    }
    let bodies = PairBodies::new(alloc, work, pair)?;
    let mut dropped = false;
    'candidates: for candidate in first..end {
        dropped |= visit(alloc, work, &bodies, settled, candidate, leaves)?;
    }
    Ok(dropped)
}

// ---- all pairs

/// Judges the live candidates in ascending order, pair by pair, each under the table as it stands then. True where
/// one was dropped; else the proofs are those of the live candidates.
fn sweep(alloc: Global, work: &Work, settled: &mut Settled, leaves: u32) -> Result<bool, NoMemory>
    requires leaves { 1 ≤ leaves }
    requires dead { AreDead leaves work.now settled.old.table settled.old.deaths.items }
    ensures dead { OnOk result (AreDead leaves work.now settled.new.table settled.new.deaths.items) }
    ensures sweeps { settled.new.sweeps ≡ settled.old.sweeps }
    ensures dropped { IfOk result (λ dropped. MatchBool dropped
        (length settled.old.deaths.items < length settled.new.deaths.items)
        (IsInductive work.now settled.new.table settled.new.proofs.items)) }
    ensures still { IfOk result (λ dropped. dropped ≡ false →
        length settled.new.deaths.items ≡ length settled.old.deaths.items) }
    ensures swept { OnOk result (IsWholeSweep work.now settled.old.table settled.new.table settled.old.deaths.items
        settled.new.deaths.items) }
{
    settled.proofs.clear();
    let mut dropped = false;
    'each: for pair in 0..work.pairs().len() {
        dropped |= sweep_pair(alloc, work, settled, pair, leaves)?;
    }
    Ok(dropped)
}

/// One more, where that is a number of sweeps.
fn one_more(sweeps: u32) -> Result<u32, NoMemory>
    ensures { IfOk result (λ more. more ≡ sweeps + 1) }
{
    match sweeps.checked_add(1) {
        Some(more) => Ok(more),
        None => Err(NoMemory),
    }
}

/// Settles the candidates of two programs: sweeps over them, from all on, until a sweep drops none. More sweeps than a
/// `u32` holds are out of memory.
pub fn settle_one(alloc: Global, work: &Work, leaves: u32) -> Result<Settled, NoMemory>
    requires { 1 ≤ leaves }
    ensures settled { IfOk result (λ s. IsSettled leaves work.now s.table s.deaths.items s.proofs.items) }
    ensures sweeps { IfOk result (λ s. AreSweeps s.sweeps (length s.deaths.items)) }
    ensures all_swept { IfOk result (λ s. AreAllSweeps work.now s.sweeps s.deaths.items s.table) }
{
    let mut settled = Settled {
        table: LiveTable::full(alloc, work.count())?,
        deaths: Vec::new(alloc),
        proofs: Vec::new(alloc),
        sweeps: 1,
    };
    'sweeps: while sweep(alloc, work, &mut settled, leaves)? {
        settled.sweeps = one_more(settled.sweeps)?;
    }
    Ok(settled)
}
