//! Which procedures without partners are called.
ghost use Rattle.std.specs.Prelude.{◌≡◌, ◌<◌, ◌==◌, ◌^◌, ℕ, IfOk, Some, None, get_or, is_none, length, if◌then◌else◌};
ghost use Rattle.std.specs.List.{filter};
ghost use Rattle.sd_runs.specs.Calls.{callees_of};
ghost use Rattle.sd_match.specs.Pairs.{owner, least};
ghost use Rattle.sd_match.specs.Tables.{AreLeast, lacks, lower};

use crate::partners::number_at;
use sd_base::NoMemory;
use sd_core::{CoreProc, CoreStmt};
use sd_runs::callees_of;
use std::alloc::Global;

/// The place of the procedure of the text that a procedure belongs to.
pub(crate) fn owner(place: u32, parent: Option<(u32, u32)>) -> u32
    ensures { result ≡ owner place parent }
{
    match parent {
        None => place,
        Some((root, _)) => root,
    }
}

fn lower(a: Option<u32>, b: Option<u32>) -> Option<u32>
    ensures { result ≡ lower a b }
{
    match (a, b) {
        (None, _) => b,
        (Some(_), None) => a,
        (Some(m), Some(n)) => Some(m.min(n)),
    }
}

fn lower_callee(partners: &[Option<u32>], least: Option<u32>, callee: u32) -> Option<u32>
    ensures { result ≡ (if lacks partners.now callee then lower least (Some callee) else least) }
{
    match number_at(partners, callee) {
        None => lower(least, Some(callee)),
        Some(_) => least,
    }
}

/// The first procedure without a partner that a body calls.
fn least_callee(
    alloc: Global,
    partners: &[Option<u32>],
    body: &[CoreStmt],
) -> Result<Option<u32>, NoMemory>
    ensures { IfOk result (λ callee. callee ≡ least (filter (lacks partners.now) (callees_of body.now))) }
{
    let callees = callees_of(alloc, body)?;
    let mut least = None;
    'callees: for place in 0..callees.len() {
        least = lower_callee(partners, least, callees[place]);
    }
    Ok(least)
}

fn put_lower(entries: &mut Vec<Option<u32>>, owner: u32, callee: Option<u32>)
    ensures count { length entries.new.items ≡ length entries.old.items }
    ensures entries { (i : ℕ) → i < length entries.old.items
        → get_or entries.new.items i None
        ≡ (if owner == i then lower (get_or entries.old.items i None) callee
        else get_or entries.old.items i None) }
{
    if (owner as usize) < entries.len() {
        entries[owner as usize] = lower(entries[owner as usize], callee);
    }
}

/// For each procedure of the text the first one without a partner that it or a loop of it calls.
pub(crate) fn first_lacking(
    alloc: Global,
    partners: &[Option<u32>],
    procs: &[CoreProc],
) -> Result<Vec<Option<u32>>, NoMemory>
    requires { length procs.now < 2 ^ 32 }
    ensures { IfOk result (λ entries. AreLeast partners.now procs.now entries.items) }
{
    let mut entries = vec![in alloc; None; procs.len()]?;
    'procs: for place in 0..procs.len() {
        let proc = &procs[place];
        let callee = least_callee(alloc, partners, proc.body.as_slice())?;
        put_lower(&mut entries, owner(place as u32, proc.parent), callee);
    }
    Ok(entries)
}
