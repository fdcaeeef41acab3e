ghost use Rattle.std.specs.Prelude.{◌≡◌, ◌⊎◌, ℕ, ◌<◌, [], ◌∷◌, ◌++◌, List, IfOk, OnOk};
ghost use Rattle.sd_kernel.specs.Proof.{State, IsOpen, front, next, continues};
ghost use Rattle.sd_cube.specs.Spent.{ClosesBranch};
ghost use Rattle.sd_search.specs.Path.{IsTurned, AllSecond};
ghost use Rattle.sd_search.specs.Reading.{Reads, Continues, others};

use sd_base::{CloneOf, NoMemory};
use sd_kernel::{Step, Walk};
use sd_term::{Cube, Literal, TermNode};
use sqlite_items::Items;
use std::alloc::Global;

/// Does a step that isn't bad, and keeps it.
pub fn do_step(walk: &mut Walk, steps: &mut Items<Step>, step: Step) -> Result<(), NoMemory>
    requires { Continues walk.old step }
    ensures walk { OnOk result (next walk.old step ≡ continues walk.new) }
    ensures steps { OnOk result (steps.new ≡ steps.old ++ step ∷ []) }
{
    let bad = walk.step(&step)?;
    prove!(bad.is_none());
    steps.push(step)?;
    Ok(())
}

/// Does steps that close the first open branch, and keeps them.
pub fn do_all(
    walk: &mut Walk,
    steps: &mut Items<Step>,
    mut closing: Items<Step>,
) -> Result<(), NoMemory>
    requires open { IsOpen walk.old }
    requires closes_branch { ClosesBranch walk.old.0 (front walk.old) closing }
    ensures terms { OnOk result (walk.new.0 ≡ walk.old.0) }
    ensures branches { OnOk result (walk.new.1 ≡ others walk.old) }
    ensures steps { OnOk result (steps.new ≡ steps.old ++ closing) }
    ensures reads { OnOk result ((s : State) → Reads s steps.old walk.old → Reads s steps.new walk.new) }
{
    'closing: while !closing.is_empty() {
        let step = closing.remove(0);
        do_step(walk, steps, step)?;
    }
    Ok(())
}

/// Turns a path to the second branch of its last split that has one left. Nothing is left of a path without one.
pub fn turn(path: &mut Items<Literal>) -> Result<(), NoMemory>
    ensures { OnOk result (IsTurned path.old path.new ⊎ AllSecond path.old) }
{
    'back: while let Some(literal) = path.pop() {
        if literal.value {
            path.push(Literal {
                term: literal.term,
                value: false,
            })?;
            return Ok(());
        }
    }
    Ok(())
}

/// A cube of copies of these terms and literals.
pub fn cube_of(alloc: Global, extra: &[TermNode], literals: &[Literal]) -> Result<Cube, NoMemory>
    ensures extra { IfOk result (λ cube. cube.extra ≡ extra.now) }
    ensures literals { IfOk result (λ cube. cube.literals ≡ literals.now) }
{
    let mut copies = Items::new(alloc);
    for node in extra {
        copies.push(node.clone_of(alloc)?)?;
    }
    let literals = Items::from_slice(alloc, literals)?;
    Ok(Cube {
        extra: copies,
        literals,
    })
}
