//! The proofs of a certificate.
ghost use Rattle.std.specs.Prelude.{◌≡◌, ◌<◌, ◌+◌, ◌-◌, ◌^◌, [], IfOk, length, slice_index_or};
ghost use Rattle.std.specs.List.{flat_map, AllByRecursion};
ghost use Rattle.sd_product.specs.Bodies.{IsAbout, count_before};
ghost use Rattle.sd_product.specs.Inductive.{proved_of};
ghost use Rattle.sd_product.specs.Work.{claims_in, pairs_in, queries_of};
ghost use Rattle.sd_cert.specs.Accepts.{FitsPairs, Ascend};
ghost use Rattle.sd_cert.specs.Certificates.{proved_lines};
ghost use Rattle.sd_cert.specs.BadSteps.{how_fault, entries_fault, pairs_fault, HasFault};
ghost use Rattle.sd_cert.specs.Headers.{headers_of};

use crate::certificate::CertPair;
use crate::counting::{below_entry, further};
use crate::fault::CertError;
use sd_cand::LiveTable;
use sd_kernel::{How, Proved, Verdict, proves};
use sd_product::{PairBodies, Work};
use std::alloc::Global;

/// Judges an entry of one of a pair's candidates under the table, over the bodies of the pair. The candidate stands at
/// this line.
fn judge_entry(
    alloc: Global,
    bodies: &PairBodies<'_>,
    table: &LiveTable,
    candidate: u32,
    how: &How,
    line: u64,
) -> Result<(), CertError>
    requires about { IsAbout bodies.now.work candidate bodies.now.pair }
    requires size { length table.now ≡ length (claims_in bodies.now.work) }
    ensures { HasFault (how_fault (line + 1)
        (slice_index_or (queries_of bodies.now.work table.now) candidate []) how.now) result }
{
    let facts = bodies.query(alloc, table, candidate)?;
    let How::Steps(proof) = how;
    match proves(&facts, proof)? {
        Verdict::Accepted => Ok(()),
        Verdict::Rejected(bad, cause) => {
            let first = further(line, 1)?;
            let at = further(first, bad as u64)?;
            Err(CertError::Step(at, cause))
        }
    }
}

/// Judges the entries of a pair, whose candidates are numbered from `first` on, from this line on, over the bodies of
/// the pair, and answers the line below them.
fn judge_entries(
    alloc: Global,
    bodies: &PairBodies<'_>,
    table: &LiveTable,
    entries: &[Proved],
    first: u32,
    line: u64,
) -> Result<u64, CertError>
    requires about { AllByRecursion
        (λ p. IsAbout bodies.now.work (first + p.candidate) bodies.now.pair) entries.now }
    requires size { length table.now ≡ length (claims_in bodies.now.work) }
    requires small { length table.now < 2 ^ 32 }
    ensures fault { HasFault (entries_fault (queries_of bodies.now.work table.now) first line entries.now) result }
    ensures line { IfOk result (λ l. l ≡ line + length (flat_map proved_lines entries.now)) }
{
    let mut at = line;
    for entry in entries {
        let candidate = first + entry.candidate;
        judge_entry(alloc, bodies, table, candidate, &entry.how, at)?;
        at = below_entry(entry, at)?;
    }
    Ok(at)
}

/// Judges the entries of a pair, which stands at this line, under the table, and answers the line below them. The
/// bodies of the pair are turned into terms once, and where there is no entry they aren't.
fn judge_pair(
    alloc: Global,
    work: &Work,
    table: &LiveTable,
    pair: u32,
    entries: &[Proved],
    line: u64,
) -> Result<u64, CertError>
    requires pair { pair < length (pairs_in work.now) }
    requires ascend { Ascend 0 (count_before work.now (pair + 1) - count_before work.now pair) (proved_of entries.now) }
    requires size { length table.now ≡ length (claims_in work.now) }
    requires small { length table.now < 2 ^ 32 }
    ensures fault { HasFault (entries_fault (queries_of work.now table.now) (count_before work.now pair) (line + 1)
        entries.now) result }
    ensures line { IfOk result (λ l. l ≡ line + 1 + length (flat_map proved_lines entries.now)) }
{
    let below = further(line, 1)?;
    if entries.is_empty() {
        return Ok(below);
    }
    let (first, _end) = work.numbers_of(pair);
    let bodies = PairBodies::new(alloc, work, pair)?;
    judge_entries(alloc, &bodies, table, entries, first, below)
}

/// Judges the proofs of all pairs under the table. The first pair stands at this line.
pub(crate) fn judge_pairs(
    alloc: Global,
    work: &Work,
    table: &LiveTable,
    claims: &[CertPair],
    line: u64,
) -> Result<(), CertError>
    requires fits { FitsPairs (headers_of work.now) claims.now }
    requires size { length table.now ≡ length (claims_in work.now) }
    requires small { length table.now < 2 ^ 32 }
    ensures { HasFault (pairs_fault (queries_of work.now table.now) 0 line (headers_of work.now) claims.now) result }
{
    let mut at = line;
    'pairs: for pair in 0..work.pairs().len() {
        let claim = &claims[pair as usize];
        at = judge_pair(alloc, work, table, pair, claim.proved.as_slice(), at)?;
    }
    Ok(())
}
