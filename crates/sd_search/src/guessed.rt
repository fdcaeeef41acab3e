ghost use Rattle.std.specs.Prelude.{◌≡◌, ◌≤◌, IfOk, IsTrue};
ghost use Rattle.sd_kernel.specs.Proof.{Proves, verdict};
ghost use Rattle.sd_kernel.specs.declared.step.Verdict.{Verdict};
ghost use Rattle.sd_cube.specs.OpenCube.{IsOpenCube};
ghost use Rattle.sd_search.specs.Terms.{AllTruthValued};
ghost use Rattle.sd_search.specs.Guessed.{IfProof, IfCube};
ghost use Rattle.sd_search.specs.Outcome.{closing, closings};

use crate::assignment::guessed_cube;
use sd_base::NoMemory;
use sd_guess::{Finding, guess};
use sd_kernel::{Proof, Step, Verdict, proves};
use sd_term::{Cube, Query};
use sqlite_items::Items;
use std::alloc::Global;

/// What is left of a guess once it is judged.
#[derive(Drop)]
pub enum Judged {
    /// Steps that the kernel accepts.
    Proof(Proof),
    /// Values that are an open cube.
    Cube(Cube),
    Nothing,
}

/// Guesses, and judges the guess: steps by the kernel and by the count of the branches that they close, values by the
/// rules of open cubes.
pub fn judged_guess(alloc: Global, query: &Query, leaves: u32) -> Result<Judged, NoMemory>
    requires truths { AllTruthValued query.now }
    ensures accepted { IfOk result (λ r. IfProof r (λ proof. verdict query.now proof.steps ≡ Verdict.Accepted)) }
    ensures proves { IfOk result (λ r. IfProof r (λ proof. Proves query.now proof.steps)) }
    ensures few { IfOk result (λ r. IfProof r (λ proof. closings proof.steps ≤ leaves)) }
    ensures cube { IfOk result (λ r. IfCube r (λ cube. IsOpenCube query.now cube)) }
{
    match guess(alloc, query, leaves)? {
        Finding::Steps(steps) => judged_steps(query, steps, leaves),
        Finding::Values(values) => match guessed_cube(alloc, query, &values)? {
            Some(cube) => Ok(Judged::Cube(cube)),
            None => Ok(Judged::Nothing),
        },
        Finding::Nothing => Ok(Judged::Nothing),
    }
}

/// The proof of steps that the kernel accepts and that close few branches.
fn judged_steps(query: &Query, steps: Items<Step>, leaves: u32) -> Result<Judged, NoMemory>
    ensures accepted { IfOk result (λ r. IfProof r (λ proof. verdict query.now proof.steps ≡ Verdict.Accepted)) }
    ensures proves { IfOk result (λ r. IfProof r (λ proof. Proves query.now proof.steps)) }
    ensures few { IfOk result (λ r. IfProof r (λ proof. closings proof.steps ≤ leaves)) }
    ensures cube { IfOk result (λ r. IfCube r (λ cube. IsOpenCube query.now cube)) }
{
    if !closes_at_most(steps.as_slice(), leaves) {
        return Ok(Judged::Nothing);
    }
    let proof = Proof { steps };
    match proves(query, &proof)? {
        Verdict::Accepted => Ok(Judged::Proof(proof)),
        Verdict::Rejected(_, _) => Ok(Judged::Nothing),
    }
}

/// Whether steps close at most so many branches.
fn closes_at_most(steps: &[Step], leaves: u32) -> bool
    ensures { IsTrue result → closings steps.now ≤ leaves }
{
    let mut left = leaves;
    for step in steps {
        match left.checked_sub(closing(step)) {
            Some(fewer) => left = fewer,
            None => return false,
        }
    }
    true
}

/// How many branches a step closes: one or none.
fn closing(step: &Step) -> u32
    ensures { result ≡ closing step.now }
{
    match step {
        Step::Close(_) => 1,
        Step::Rows(_) => 1,
        _ => 0,
    }
}
