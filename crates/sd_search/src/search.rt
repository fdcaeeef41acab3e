ghost use Rattle.std.specs.Prelude.{◌≡◌, ◌≤◌, IfOk};
ghost use Rattle.sd_kernel.specs.Proof.{Proves, verdict};
ghost use Rattle.sd_kernel.specs.declared.step.Verdict.{Verdict};
ghost use Rattle.sd_cube.specs.OpenCube.{IsOpenCube};
ghost use Rattle.sd_cube.specs.Spent.{IsSpent};
ghost use Rattle.sd_search.specs.Terms.{AllTruthValued};
ghost use Rattle.sd_search.specs.Outcome.{IfRefuted, IfOpen, IfSpent, closings};

use crate::guessed::{Judged, judged_guess};
use crate::progress::Search;
use sd_base::NoMemory;
use sd_kernel::{Proof, Verdict};
use sd_term::{Cube, Query};
use sqlite_items::Items;
use std::alloc::Global;

/// What a search finds.
#[derive(Drop)]
pub enum Outcome {
    /// A proof that no valuation makes all facts true.
    Refuted(Proof),
    /// Values of the atoms under which the facts are true.
    Open(Cube),
    /// The cubes that were closed, where there were to be no more of them.
    Spent(Items<Cube>),
}

/// Looks for a proof that no valuation makes all facts of a query true. A guess comes first: where the kernel accepts
/// its steps, or its values are an open cube, that is the answer. Else an exact search splits on atoms, each at most
/// once on a branch, and closes a branch as soon as a fact is false in it, elimination refutes its rows, or its
/// equalities clash (Davis, Logemann and Loveland 1962; Nelson and Oppen 1979). At most `leaves` branches are closed.
/// A search of 2^32 - 1 steps or more is out of memory, and so is a query of 2^32 facts or more.
pub fn refute(alloc: Global, query: &Query, leaves: u32) -> Result<Outcome, NoMemory>
    requires leaves { 1 ≤ leaves }
    requires truths { AllTruthValued query.now }
    ensures accepted { IfOk result (λ r. IfRefuted r (λ proof. verdict query.now proof.steps ≡ Verdict.Accepted)) }
    ensures refuted { IfOk result (λ r. IfRefuted r (λ proof. Proves query.now proof.steps)) }
    ensures few { IfOk result (λ r. IfRefuted r (λ proof. closings proof.steps ≤ leaves)) }
    ensures cube { IfOk result (λ r. IfOpen r (λ cube. IsOpenCube query.now cube)) }
    ensures spent { IfOk result (λ r. IfSpent r (λ cubes. IsSpent query.now cubes leaves)) }
{
    match judged_guess(alloc, query, leaves)? {
        Judged::Proof(proof) => return Ok(Outcome::Refuted(proof)),
        Judged::Cube(cube) => return Ok(Outcome::Open(cube)),
        Judged::Nothing => {}
    }
    let mut search = Search::new(alloc, query)?;
    'branches: while search.walk.is_open() {
        if search.steps.len() >= u32::MAX as usize {
            return Err(NoMemory);
        }
        if search.cubes.len() >= leaves as usize {
            return Ok(Outcome::Spent(search.cubes));
        }
        if let Some(cube) = search.advance(query)? {
            return Ok(Outcome::Open(cube));
        }
    }
    let steps = search.steps;
    Ok(Outcome::Refuted(Proof { steps }))
}
