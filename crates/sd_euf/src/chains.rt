ghost use Rattle.std.specs.Prelude.{◌≡◌, ℕ, ◌<◌, List, IfOk, IfSome, IfNone, length, false};
ghost use Rattle.sd_term.specs.Bank.{tree_at};
ghost use Rattle.sd_term.specs.Sorts.{AllWellSorted};
ghost use Rattle.sd_kernel.specs.Known.{Trail};
ghost use Rattle.sd_cube.specs.Required.{NoneJoined};
ghost use Rattle.sd_euf.specs.Closed.{AreClasses};
ghost use Rattle.sd_euf.specs.Judged.{HasValues, Breaks};
ghost use Rattle.sd_euf.specs.Links.{NotJoined};

use crate::links::{chain_between, sides_of};
use sd_base::NoMemory;
use sd_kernel::Step;
use sd_term::{Bank, TermId};
use sqlite_items::Items;
use std::alloc::Global;

/// The sides of an equality are joined by these.
fn chain_step(eq: TermId, chain: Items<u32>) -> Step
    ensures { result ≡ Step.Chain eq chain }
{
    Step::Chain(eq.number(), chain)
}

/// The step that contradicts a false equality whose sides are joined.
fn broken_chain(
    alloc: Global,
    terms: &Bank,
    values: &[Option<bool>],
    classes: &[u32],
    id: TermId,
) -> Result<Option<Step>, NoMemory>
    requires id { id < length terms.now }
    requires sorted { AllWellSorted terms.now }
    requires long { length values.now ≡ length terms.now }
    requires as_long { length classes.now ≡ length terms.now }
    requires classes { (trail : Trail) → HasValues terms.now trail values.now → AreClasses terms.now trail classes.now }
    ensures broken { IfOk result (λ r. IfSome r (λ step. Breaks terms.now values.now step)) }
    ensures holds { IfOk result (λ r. IfNone r ((trail : Trail) → HasValues terms.now trail values.now
        → NotJoined terms.now (tree_at terms.now id) trail)) }
{
    let Some(sides) = sides_of(terms, values, id, false) else {
        return Ok(None);
    };
    if classes[sides.left.number() as usize] != classes[sides.right.number() as usize] {
        return Ok(None);
    }
    let found = chain_between(alloc, terms, values, sides.left, sides.right)?;
    let Some(chain) = found else {
        return Ok(None);
    };
    Ok(Some(chain_step(id, chain)))
}

/// The step that contradicts the first false equality whose sides are joined.
pub fn broken_chains(
    alloc: Global,
    terms: &Bank,
    values: &[Option<bool>],
    classes: &[u32],
) -> Result<Option<Step>, NoMemory>
    requires sorted { AllWellSorted terms.now }
    requires long { length values.now ≡ length terms.now }
    requires as_long { length classes.now ≡ length terms.now }
    requires classes { (trail : Trail) → HasValues terms.now trail values.now → AreClasses terms.now trail classes.now }
    ensures broken { IfOk result (λ r. IfSome r (λ step. Breaks terms.now values.now step)) }
    ensures holds { IfOk result (λ r. IfNone r ((trail : Trail) → HasValues terms.now trail values.now
        → NoneJoined terms.now trail)) }
{
    for i in 0..terms.len() as usize {
        let broken = broken_chain(alloc, terms, values, classes, TermId::new(i as u32))?;
        if let Some(step) = broken {
            return Ok(Some(step));
        }
    }
    Ok(None)
}
