//! Whether a pair can be judged.
ghost use Rattle.std.specs.Prelude.{◌≡◌, IfOk, slice_get};
ghost use Rattle.std.specs.Option.{option_copied};
ghost use Rattle.sd_match.specs.Pairs.{name_at, state_by, state_of};
ghost use Rattle.sd_match.specs.Tables.{AreTablesOf};

use crate::pair::PairState;
use crate::partners::{have_same_types, number_at};
use crate::tables::Tables;
use sd_base::{CloneOf, Name, NoMemory};
use sd_core::{CoreProc, CoreProgram};
use sqlite_items::at;
use std::alloc::Global;

fn name_at(procs: &[CoreProc], place: Option<u32>) -> Option<&Name>
    ensures { option_copied result ≡ name_at procs.now place }
{
    match place {
        None => None,
        Some(place) => match at(procs, place as usize) {
            None => None,
            Some(proc) => Some(&proc.name),
        },
    }
}

fn state_by(alloc: Global, old: Option<&Name>, new: Option<&Name>) -> Result<PairState, NoMemory>
    ensures { IfOk result (λ state. state ≡ state_by (option_copied old.entry) (option_copied new.entry)) }
{
    match old {
        Some(name) => Ok(PairState::UnmatchedRecursion(name.clone_of(alloc)?)),
        None => match new {
            Some(name) => Ok(PairState::UnmatchedRecursion(name.clone_of(alloc)?)),
            None => Ok(PairState::Open),
        },
    }
}

/// The state of the pair of two procedures of the texts.
pub(crate) fn state_of(
    alloc: Global,
    old: &CoreProgram,
    new: &CoreProgram,
    tables: &Tables,
    i: u32,
    j: u32,
) -> Result<PairState, NoMemory>
    requires { AreTablesOf old.now new.now tables.now }
    ensures { IfOk result
        (λ state. state ≡ state_of old.now new.now i j (slice_get old.now.procs i) (slice_get new.now.procs j)) }
{
    match old.procs.get(i as usize) {
        None => Ok(PairState::Signature),
        Some(p) => match new.procs.get(j as usize) {
            None => Ok(PairState::Signature),
            Some(q) => {
                if have_same_types(p, q) {
                    state_by(
                        alloc,
                        name_at(old.procs.as_slice(), number_at(&tables.olds, i)),
                        name_at(new.procs.as_slice(), number_at(&tables.news, j)),
                    )
                } else {
                    Ok(PairState::Signature)
                }
            }
        },
    }
}
