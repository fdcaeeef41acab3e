//! The query of a candidate.
ghost use Rattle.std.specs.Prelude.{◌≡◌, ◌<◌, IfOk, Some, length, slice_get};
ghost use Rattle.sd_product.specs.Work.{claims_in, queries_of};

use crate::bodies::PairBodies;
use crate::work::Work;
use sd_base::NoMemory;
use sd_cand::LiveTable;
use sd_term::Query;
use std::alloc::Global;

/// The query of a candidate under a table of live candidates: facts that no valuation makes true where the candidate
/// holds, if the live candidates hold at calls (Hawblitzel and others 2013). More than 2^32 - 1 symbols are answered
/// as out of memory.
pub fn query(
    alloc: Global,
    work: &Work,
    table: &LiveTable,
    candidate: u32,
) -> Result<Query, NoMemory>
    requires within { candidate < length (claims_in work.now) }
    requires size { length table.now ≡ length (claims_in work.now) }
    ensures { IfOk result (λ q. slice_get (queries_of work.now table.now) candidate ≡ Some q) }
{
    let (pair, _) = work.candidate_place(candidate);
    let bodies = PairBodies::new(alloc, work, pair)?;
    let query = bodies.query(alloc, table, candidate)?;
    Ok(query)
}
