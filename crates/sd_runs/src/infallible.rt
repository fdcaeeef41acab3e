//! The infallible procedures: those that never raise their flag.
ghost use Rattle.std.specs.Prelude.{◌≡◌, [], length, replicate, IfOk, OnOk};
ghost use Rattle.sd_runs.specs.Marks.{with_caller, with_callers, marked, all_marked, may_be_infallible, refuted_from};
ghost use Rattle.sd_runs.specs.Infallible.{AreTheInfallible, entry_at};

use crate::calls::{any_fail, callees_of};
use sd_base::NoMemory;
use sd_core::CoreProc;
use sqlite_items::Items;
use std::alloc::Global;

/// Which procedures are infallible, by their places. A procedure with a failure of its own isn't, nor one that calls a
/// place without procedure, nor the callers of those.
pub fn infallible_procedures(alloc: Global, procs: &[CoreProc]) -> Result<Vec<bool>, NoMemory>
    ensures length { IfOk result (λ infallible. length infallible.items ≡ length procs.now) }
    ensures infallible { IfOk result (λ infallible. AreTheInfallible procs.now (entry_at infallible.items)) }
{
    let callers = callers_of(alloc, procs)?;
    let mut infallible = vec![in alloc; true; procs.len()]?;
    let mut waiting = Vec::new(alloc);
    mark_first(alloc, procs, &mut infallible, &mut waiting)?;
    while let Some(at) = waiting.pop() {
        mark_all(&mut infallible, &mut waiting, callers[at].as_slice())?;
    }
    Ok(infallible)
}

// ---- callers

/// For each procedure the places of those that call it, one for each call.
fn callers_of(alloc: Global, procs: &[CoreProc]) -> Result<Vec<Items<usize>>, NoMemory>
    ensures { IfOk result (λ callers. callers.items ≡ with_callers 0 procs.now (replicate (length procs.now) [])) }
{
    let mut callers = no_callers(alloc, procs.len())?;
    for (at, procedure) in procs.iter().enumerate() {
        let callees = callees_of(alloc, procedure.body.as_slice())?;
        put_caller(&mut callers, &callees, at)?;
    }
    Ok(callers)
}

fn no_callers(alloc: Global, count: usize) -> Result<Vec<Items<usize>>, NoMemory>
    ensures { IfOk result (λ callers. callers.items ≡ replicate count []) }
{
    let mut callers = Vec::new(alloc);
    for _ in 0..count {
        callers.push(Items::new(alloc))?;
    }
    Ok(callers)
}

/// Adds a caller to the list of each callee.
fn put_caller(
    callers: &mut Vec<Items<usize>>,
    callees: &[u32],
    caller: usize,
) -> Result<(), NoMemory>
    ensures { OnOk result (callers.new.items ≡ with_caller caller callees.now callers.old.items) }
{
    for callee in callees {
        if let Some(list) = callers.get_mut(*callee as usize) {
            list.push(caller)?;
        }
    }
    Ok(())
}

// ---- marks

/// Whether a procedure may be infallible as far as its body tells, where there are this many procedures.
fn may_be_infallible(alloc: Global, procedure: &CoreProc, count: usize) -> Result<bool, NoMemory>
    ensures { IfOk result (λ r. r ≡ may_be_infallible count procedure.now) }
{
    let body = procedure.body.as_slice();
    if any_fail(body) {
        return Ok(false);
    }
    let callees = callees_of(alloc, body)?;
    Ok(callees.iter().all(|q| (*q as usize) < count))
}

/// Marks those that can't be infallible by their bodies.
fn mark_first(
    alloc: Global,
    procs: &[CoreProc],
    infallible: &mut Vec<bool>,
    waiting: &mut Vec<usize>,
) -> Result<(), NoMemory>
    ensures { OnOk result ((infallible.new.items, waiting.new.items)
        ≡ all_marked (refuted_from (length procs.now) 0 procs.now) (infallible.old.items, waiting.old.items)) }
{
    for (at, procedure) in procs.iter().enumerate() {
        if !may_be_infallible(alloc, procedure, procs.len())? {
            mark(infallible, waiting, at)?;
        }
    }
    Ok(())
}

/// Marks a procedure, if it isn't marked, and lets its callers wait for it.
fn mark(infallible: &mut Vec<bool>, waiting: &mut Vec<usize>, at: usize) -> Result<(), NoMemory>
    ensures { OnOk result ((infallible.new.items, waiting.new.items)
        ≡ marked at (infallible.old.items, waiting.old.items)) }
{
    if let Some(entry) = infallible.get_mut(at) {
        if *entry {
            *entry = false;
            waiting.push(at)?;
        }
    }
    Ok(())
}

fn mark_all(
    infallible: &mut Vec<bool>,
    waiting: &mut Vec<usize>,
    places: &[usize],
) -> Result<(), NoMemory>
    ensures { OnOk result ((infallible.new.items, waiting.new.items)
        ≡ all_marked places.now (infallible.old.items, waiting.old.items)) }
{
    for at in places {
        mark(infallible, waiting, *at)?;
    }
    Ok(())
}
