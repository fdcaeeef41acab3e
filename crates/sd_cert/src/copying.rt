//! Copies of steps.
ghost use Rattle.std.specs.Prelude.{◌≡◌, IfOk};

use sd_base::NoMemory;
use sd_kernel::Step;
use sqlite_items::Items;
use std::alloc::Global;

/// An equal step.
pub(crate) fn copy_step(alloc: Global, step: &Step) -> Result<Step, NoMemory>
    ensures { IfOk result (λ copy. copy ≡ step.now) }
{
    Ok(match step {
        Step::Term(node) => Step::Term(*node),
        Step::Split(term) => Step::Split(*term),
        Step::Order(equality, left, right) => Step::Order(*equality, *left, *right),
        Step::Ite(choice, equality) => Step::Ite(*choice, *equality),
        Step::Chain(equality, links) => {
            Step::Chain(*equality, Items::from_slice(alloc, links.as_slice())?)
        }
        Step::Close(fact) => Step::Close(*fact),
        Step::Rows(rows) => Step::Rows(Items::from_slice(alloc, rows.as_slice())?),
    })
}

/// Equal steps.
pub(crate) fn copy_steps(alloc: Global, steps: &[Step]) -> Result<Items<Step>, NoMemory>
    ensures { IfOk result (λ copies. copies ≡ steps.now) }
{
    let mut copies = Items::new(alloc);
    for step in steps {
        copies.push(copy_step(alloc, step)?)?;
    }
    Ok(copies)
}
