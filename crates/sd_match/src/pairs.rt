//! The pairs of two programs.
ghost use Rattle.std.specs.Prelude.{◌≡◌, ◌<◌, ◌^◌, ◌++◌, IfOk, IfErr, OnOk, Some, None, length, slice_get};
ghost use Rattle.std.specs.Option.{option_copied};
ghost use Rattle.sd_core.specs.Formed.{WellFormed};
ghost use Rattle.sd_match.specs.Pairs.{owner, root_of, fixed_ins, fixed_outs, carried_count, inputs_of, outputs_of, state_of, partner, pair_with, pair_by, pairs_of};
ghost use Rattle.sd_match.specs.Refusals.{Answers, refusal_of};
ghost use Rattle.sd_match.specs.Tables.{AreTablesOf};

use crate::modified::modified_globals;
use crate::pair::{Pair, PairState, SpotPair};
use crate::partners::number_at;
use crate::refusal::{MatchError, refuse};
use crate::spots::{Outs, put_ins, put_outs, put_shared, sum_of};
use crate::state::state_of;
use crate::tables::{Tables, tables_of};
use crate::unmatched::owner;
use sd_base::NoMemory;
use sd_config::Settings;
use sd_core::{CoreProc, CoreProgram};
use sqlite_items::Items;
use std::alloc::Global;
use std::marker::Model;

// ---- how parameters are paired

fn root_of<'a>(program: &'a CoreProgram, proc: &CoreProc) -> Option<&'a CoreProc>
    ensures { option_copied result ≡ root_of program.now proc.now }
{
    match proc.parent {
        None => None,
        Some((root, _)) => program.procs.get(root as usize),
    }
}

/// How many in-parameters are paired by position.
fn fixed_ins(proc: &CoreProc, root: Option<&CoreProc>) -> Result<usize, NoMemory>
    ensures { IfOk result (λ count. count ≡ fixed_ins proc.now (option_copied root.entry)) }
{
    match root {
        None => Ok(proc.ins.len()),
        Some(root) => sum_of(root.ins.len(), root.outs.len()),
    }
}

/// The out-parameters, and how many of them are paired by position and then by name.
fn outs_of<'a>(proc: &'a CoreProc, root: Option<&CoreProc>) -> Result<Outs<'a>, NoMemory>
    ensures first { IfOk result (λ outs. outs.first ≡ length proc.now.ins) }
    ensures fixed { IfOk result (λ outs. outs.fixed ≡ fixed_outs proc.now (option_copied root.entry)) }
    ensures carried { IfOk result (λ outs. outs.carried_count ≡ carried_count proc.now (option_copied root.entry)) }
    ensures vars { IfOk result (λ outs. outs.vars.now ≡ proc.now.outs) }
{
    let first = proc.ins.len();
    let vars = proc.outs.as_slice();
    match root {
        None => Ok(Outs {
            first,
            fixed: vars.len(),
            carried_count: 0,
            vars,
        }),
        Some(root) => {
            let parameters = sum_of(root.outs.len(), proc.modifies.len())?;
            Ok(Outs {
                first,
                fixed: root.outs.len(),
                carried_count: first.saturating_sub(sum_of(root.ins.len(), parameters)?),
                vars,
            })
        }
    }
}

// ---- one pair

fn inputs_of(
    alloc: Global,
    old: &CoreProgram,
    new: &CoreProgram,
    tables: &Tables,
    p: &CoreProc,
    q: &CoreProc,
) -> Result<Items<SpotPair>, NoMemory>
    requires { AreTablesOf old.now new.now tables.now }
    ensures { IfOk result (λ inputs. inputs ≡ inputs_of old.now new.now p.now q.now) }
{
    let mut inputs = Items::new(alloc);
    put_ins(
        alloc,
        &mut inputs,
        fixed_ins(p, root_of(old, p))?,
        fixed_ins(q, root_of(new, q))?,
        p.ins.as_slice(),
        q.ins.as_slice(),
    )?;
    put_shared(alloc, &mut inputs, old.globals.as_slice(), &tables.shared)?;
    Ok(inputs)
}

fn outputs_of(
    alloc: Global,
    old: &CoreProgram,
    new: &CoreProgram,
    tables: &Tables,
    p: &CoreProc,
    q: &CoreProc,
) -> Result<Items<SpotPair>, NoMemory>
    requires { AreTablesOf old.now new.now tables.now }
    ensures { IfOk result (λ outputs. outputs ≡ outputs_of old.now new.now p.now q.now) }
{
    let mut outputs = Items::new(alloc);
    put_outs(
        alloc,
        &mut outputs,
        outs_of(p, root_of(old, p))?,
        outs_of(q, root_of(new, q))?,
    )?;
    let shared = modified_globals(
        alloc,
        old.globals.len(),
        new.globals.len(),
        p,
        q,
        &tables.shared,
    )?;
    put_shared(alloc, &mut outputs, old.globals.as_slice(), &shared)?;
    Ok(outputs)
}

/// A procedure, or that of a loop, and its place in the program.
#[derive(Clone, Copy)]
struct Placed<'a> {
    pub place: u32,
    pub proc: &'a CoreProc,
}

/// The pair of two procedures.
fn pair_of(
    alloc: Global,
    old: &CoreProgram,
    new: &CoreProgram,
    tables: &Tables,
    p: Placed<'_>,
    q: Placed<'_>,
) -> Result<Pair, NoMemory>
    requires { AreTablesOf old.now new.now tables.now }
    ensures { IfOk result
        (λ pair. pair
        ≡ pair_with (state_of old.now new.now
        (owner p.entry.place p.entry.proc.now.parent) (owner q.entry.place q.entry.proc.now.parent)
        (slice_get old.now.procs (owner p.entry.place p.entry.proc.now.parent))
        (slice_get new.now.procs (owner q.entry.place q.entry.proc.now.parent)))
        old.now new.now p.entry.place q.entry.place p.entry.proc.now q.entry.proc.now) }
{
    let state = state_of(
        alloc,
        old,
        new,
        tables,
        owner(p.place, p.proc.parent),
        owner(q.place, q.proc.parent),
    )?;
    if let PairState::Signature = state {
        return Ok(Pair {
            old: p.place,
            new: q.place,
            state,
            inputs: Items::new(alloc),
            outputs: Items::new(alloc),
        });
    }
    Ok(Pair {
        old: p.place,
        new: q.place,
        state,
        inputs: inputs_of(alloc, old, new, tables, p.proc, q.proc)?,
        outputs: outputs_of(alloc, old, new, tables, p.proc, q.proc)?,
    })
}

// ---- all pairs

/// Adds the pair of this old procedure, where it has a partner.
fn put_pair(
    alloc: Global,
    pairs: &mut Items<Pair>,
    old: &CoreProgram,
    new: &CoreProgram,
    tables: &Tables,
    p: Placed<'_>,
) -> Result<(), NoMemory>
    requires tables { AreTablesOf old.now new.now tables.now }
    requires proc { slice_get old.now.procs p.place ≡ Some p.proc.now }
    ensures { OnOk result
        (pairs.new ≡ pairs.old ++ pair_by old.now new.now p.entry.place p.entry.proc.now
        (partner old.now new.now p.entry.proc.now)) }
{
    match number_at(&tables.partners, p.place) {
        None => Ok(()),
        Some(partner) => match new.procs.get(partner as usize) {
            None => Ok(()),
            Some(proc) => {
                let q = Placed {
                    place: partner,
                    proc,
                };
                pairs.push(pair_of(alloc, old, new, tables, p, q)?)?;
                Ok(())
            }
        },
    }
}

fn pairs_of(
    alloc: Global,
    old: &CoreProgram,
    new: &CoreProgram,
    tables: &Tables,
) -> Result<Items<Pair>, NoMemory>
    requires tables { AreTablesOf old.now new.now tables.now }
    requires small { length old.now.procs < 2 ^ 32 }
    ensures { IfOk result (λ pairs. pairs ≡ pairs_of old.now new.now) }
{
    let procs = old.procs.as_slice();
    let mut pairs = Items::new(alloc);
    'procs: for place in 0..procs.len() {
        let p = Placed {
            place: place as u32,
            proc: &procs[place],
        };
        put_pair(alloc, &mut pairs, old, new, tables, p)?;
    }
    Ok(pairs)
}

/// The pairs of two programs, in the order of the old procedures, each followed by those of its loops.
#[derive(Drop)]
pub struct Pairs {
    pairs: Items<Pair>,
}

impl Model for Pairs {
    ghost use Rattle.std.specs.Prelude.{List, ◌<◌, ◌^◌, length};
    ghost use Rattle.std.specs.Coded.{codes};
    ghost use Rattle.sd_base.specs.contracts.sort.Sort as sort;
    ghost use Rattle.sd_match.specs.declared.pair.Pair.{Pair};

    ghost Value = { List Pair };

    ghost coded = { Prim.hlevel (codes, sort.the_row.coded) };

    ghost view = { λ p. p.pairs };

    ghost invariant = { λ p. length p.pairs < 2 ^ 32 };
}

impl Pairs {
    /// How many pairs there are.
    pub fn len(&self) -> u32
        ensures { result ≡ length self.now }
    {
        self.pairs.len() as u32
    }

    /// The pair at this place.
    pub fn pair(&self, i: u32) -> &Pair
        requires { i < length self.now }
        ensures { slice_get self.now i ≡ Some result.now }
    {
        &self.pairs.as_slice()[i as usize]
    }

    /// The pairs in order.
    pub fn as_slice(&self) -> &[Pair]
        ensures { result.now ≡ self.now }
    {
        self.pairs.as_slice()
    }
}

/// Pairs the procedures and loops of two programs.
///
/// A procedure's partner has its name, and a loop's partner its number in the partner of the procedure that it stands
/// in, if those have parameters of the same types.
///
/// # Errors
///
/// `GlobalTypes` or `FunctionSignatures` where both programs declare a name with two types.
pub fn pair_up(
    alloc: Global,
    old: &CoreProgram,
    new: &CoreProgram,
    _settings: &Settings,
) -> Result<Pairs, MatchError>
    requires old { WellFormed old.now }
    requires new { WellFormed new.now }
    ensures pairs { IfOk result (λ pairs. pairs ≡ pairs_of old.now new.now) }
    ensures unrefused { OnOk result (refusal_of old.now new.now ≡ None) }
    ensures refused { IfErr result (λ e. Answers e (refusal_of old.now new.now)) }
{
    refuse(alloc, old, new)?;
    let tables = tables_of(alloc, old, new)?;
    let pairs = pairs_of(alloc, old, new, &tables)?;
    if pairs.len() > u32::MAX as usize {
        return Err(MatchError::NoMemory);
    }
    Ok(Pairs { pairs })
}
