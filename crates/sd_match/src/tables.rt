//! What is worked out once for two programs.
ghost use Rattle.std.specs.Prelude.{◌≡◌, ◌^◌, ◌<◌, IfOk, OnOk, length};
ghost use Rattle.sd_core.specs.Formed.{WellFormed};
ghost use Rattle.sd_match.specs.Tables.{AreFirstUnmatched, AreTablesOf};

use crate::partners::partners_of;
use crate::shared::shared_globals;
use crate::unmatched::first_lacking;
use sd_base::NoMemory;
use sd_core::{CoreProgram, Shared};
use std::alloc::Global;

/// The tables of two programs.
#[derive(Drop)]
pub(crate) struct Tables {
    /// The partner of each old procedure.
    pub partners: Vec<Option<u32>>,
    /// For each old procedure of the text the first one without a partner that it or a loop of it calls.
    pub olds: Vec<Option<u32>>,
    /// So for each new one.
    pub news: Vec<Option<u32>>,
    pub shared: Vec<Shared>,
}

/// For each procedure of the text the first one without a partner in the other program that it or a loop of it calls.
fn first_unmatched_of(
    alloc: Global,
    program: &CoreProgram,
    other: &CoreProgram,
) -> Result<Vec<Option<u32>>, NoMemory>
    requires formed { WellFormed program.now }
    requires small { length program.now.procs < 2 ^ 32 }
    requires other_small { length other.now.procs < 2 ^ 32 }
    ensures { IfOk result (λ entries. AreFirstUnmatched program.now other.now entries.items) }
{
    let partners = partners_of(alloc, program, other)?;
    let entries = first_lacking(alloc, &partners, program.procs.as_slice())?;
    Ok(entries)
}

/// The tables of two programs.
pub(crate) fn tables_of(
    alloc: Global,
    old: &CoreProgram,
    new: &CoreProgram,
) -> Result<Tables, NoMemory>
    requires old_formed { WellFormed old.now }
    requires new_formed { WellFormed new.now }
    ensures tables { IfOk result (λ tables. AreTablesOf old.now new.now tables) }
    ensures small { OnOk result (length old.now.procs < 2 ^ 32) }
{
    if old.procs.len() > u32::MAX as usize || new.procs.len() > u32::MAX as usize {
        return Err(NoMemory);
    }
    Ok(Tables {
        partners: partners_of(alloc, old, new)?,
        olds: first_unmatched_of(alloc, old, new)?,
        news: first_unmatched_of(alloc, new, old)?,
        shared: shared_globals(alloc, old.globals.as_slice(), new.globals.as_slice())?,
    })
}
