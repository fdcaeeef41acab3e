ghost use Rattle.std.specs.Prelude.{◌≡◌, ℕ, ◌<◌, ◌^◌, All, IfOk, [], ◌∷◌, length, map};
ghost use Rattle.sd_term.specs.Closed.{IsClosed};
ghost use Rattle.sd_kernel.specs.Facts.{trail_of};
ghost use Rattle.sd_kernel.specs.Known.{known};
ghost use Rattle.sd_term.specs.Sorts.{AllWellSorted};
ghost use Rattle.sd_cube.specs.Spent.{ClosesBranch};
ghost use Rattle.sd_euf.specs.Closed.{IfConflict, IfMissing, IfClasses, IsRequiredStep, AreSettled};

use crate::chains::broken_chains;
use crate::choices::judged_choices;
use crate::classes::classes_of;
use crate::judged::Judged;
use crate::orders::judged_orders;
use crate::table::left_table;
use sd_base::NoMemory;
use sd_kernel::{Fact, Step};
use sd_term::Bank;
use sqlite_items::Items;
use std::alloc::Global;

/// What the equalities of a branch come to.
#[derive(Drop)]
pub enum Closed {
    /// Steps that close the branch.
    Conflict(Items<Step>),
    /// A step that numbers a term that is asked for, or splits one without a value.
    Missing(Step),
    /// No rule of choices, orders and chains is broken: a number for each term, one for all that are joined by true
    /// equalities.
    Classes(Items<u32>),
}

/// Closes the equalities of a branch with these facts: chains of equalities, the equalities of choices with the parts
/// that they choose, and the orders of false equalities of integers.
pub fn close(
    alloc: Global,
    terms: &Bank,
    trail: &[Fact],
    values: &[Option<bool>],
) -> Result<Closed, NoMemory>
    requires below { All (λ f. f.term < length terms.now) trail.now }
    requires sorted { AllWellSorted terms.now }
    requires closed { IsClosed terms.now }
    requires values { values.now ≡ map (λ t. known (trail_of terms.now trail.now) t) terms.now }
    requires short { length trail.now < 2 ^ 32 }
    ensures conflict { IfOk result (λ r.
        IfConflict r (λ steps. ClosesBranch terms.now (trail_of terms.now trail.now) steps)) }
    ensures missing { IfOk result (λ r.
        IfMissing r (λ step. IsRequiredStep terms.now (trail_of terms.now trail.now) step)) }
    ensures classes { IfOk result (λ r.
        IfClasses r (λ classes. AreSettled terms.now (trail_of terms.now trail.now) classes)) }
{
    let table = left_table(alloc, terms)?;
    let missing_choice = match judged_choices(terms, &table, values) {
        Judged::Broken(step) => return conflict(alloc, step, trail.len()),
        Judged::Missing(step) => Some(step),
        Judged::Holds => None,
    };
    let missing_order = match judged_orders(terms, &table, values) {
        Judged::Broken(step) => return conflict(alloc, step, trail.len()),
        Judged::Missing(step) => Some(step),
        Judged::Holds => None,
    };
    let classes = classes_of(alloc, terms, values)?;
    let broken = broken_chains(alloc, terms, values, classes.as_slice())?;
    if let Some(step) = broken {
        return conflict(alloc, step, trail.len());
    }
    if let Some(step) = missing_choice {
        return Ok(Closed::Missing(step));
    }
    if let Some(step) = missing_order {
        return Ok(Closed::Missing(step));
    }
    Ok(Closed::Classes(classes))
}

/// The step, and the contradiction of its new fact, which comes after so many others.
fn conflict(alloc: Global, step: Step, facts: usize) -> Result<Closed, NoMemory>
    requires { facts < 2 ^ 32 }
    ensures { IfOk result (λ r. r ≡ Closed.Conflict (step ∷ Step.Close facts ∷ [])) }
{
    let mut steps = Items::new(alloc);
    steps.push(step)?;
    steps.push(Step::Close(facts as u32))?;
    Ok(Closed::Conflict(steps))
}
