//! The table of the candidates that a certificate lists.
ghost use Rattle.std.specs.Prelude.{◌≡◌, ◌<◌, ◌≤◌, ◌+◌, ◌++◌, ◌^◌, IfOk, List, ℕ, length, map};
ghost use Rattle.sd_product.specs.Inductive.{proved_of, live_from};
ghost use Rattle.sd_product.specs.Work.{claims_in};
ghost use Rattle.sd_cert.specs.Accepts.{FitsPairs, Ascend, proofs_from};
ghost use Rattle.sd_cert.specs.Headers.{headers_of};
ghost use Rattle.sd_cert.specs.Tables.{IsDecided};

use crate::certificate::CertPair;
use sd_base::NoMemory;
use sd_cand::LiveTable;
use sd_kernel::Proved;
use sd_product::Work;
use std::alloc::Global;

/// Makes the candidates from one number on up to another dead.
fn clear_until(table: &mut LiveTable, from: u32, to: u32)
    requires order { from ≤ to }
    requires within { to ≤ length table.old }
    ensures size { length table.new ≡ length table.old }
    ensures decided { (numbers : List ℕ) → IsDecided table.old from numbers → IsDecided table.new to numbers }
{
    for candidate in from..to {
        table.clear(candidate);
    }
}

/// Leaves of a pair, whose candidates are numbered from `first` on, the listed candidates live. All candidates below
/// `frontier` are decided, and in the end those below the answer are.
fn list_entries(
    table: &mut LiveTable,
    entries: &[Proved],
    first: u32,
    count: u32,
    frontier: u32,
) -> u32
    requires ascend { Ascend 0 count (proved_of entries.now) }
    requires order { frontier ≤ first }
    requires within { first + count ≤ length table.old }
    requires fits { first + count < 2 ^ 32 }
    ensures size { length table.new ≡ length table.old }
    ensures order { result ≤ first + count }
    ensures decided { (numbers : List ℕ) → IsDecided table.old frontier numbers →
        IsDecided table.new result (numbers ++ map (λ k. first + k) (proved_of entries.now)) }
{
    let mut next = frontier;
    for entry in entries {
        let number = first + entry.candidate;
        clear_until(table, next, number);
        next = number + 1;
    }
    next
}

/// The table in which just the candidates that a certificate of these pairs lists are live.
pub(crate) fn list_live(
    alloc: Global,
    work: &Work,
    claims: &[CertPair],
) -> Result<LiveTable, NoMemory>
    requires { FitsPairs (headers_of work.now) claims.now }
    ensures size { IfOk result (λ table. length table ≡ length (claims_in work.now)) }
    ensures small { IfOk result (λ table. length table < 2 ^ 32) }
    ensures live { IfOk result (λ table.
        proved_of (proofs_from 0 (headers_of work.now) claims.now) ≡ live_from 0 table) }
{
    let total = work.count();
    let mut table = LiveTable::full(alloc, total)?;
    let mut frontier = 0u32;
    'pairs: for pair in 0..work.pairs().len() {
        let (first, end) = work.numbers_of(pair);
        let claim = &claims[pair as usize];
        frontier = list_entries(
            &mut table,
            claim.proved.as_slice(),
            first,
            end - first,
            frontier,
        );
    }
    clear_until(&mut table, frontier, total);
    Ok(table)
}
