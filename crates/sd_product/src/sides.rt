//! Bodies between their inputs and their ends, as terms.
ghost use Rattle.std.specs.Prelude.{◌≡◌, ◌+◌, IfOk, OnOk, [], length};
ghost use Rattle.std.specs.Option.{option_copied};
ghost use Rattle.sd_core.specs.Formed.{sorts_of};
ghost use Rattle.sd_term.specs.Build.{Extends};
ghost use Rattle.sd_vcgen.specs.Body.{symbols, count_all};
ghost use Rattle.sd_vcgen.specs.Numbers.{DenoteAll, context_of, KeepsAll};
ghost use Rattle.sd_product.specs.Query as query;
ghost use Rattle.sd_product.specs.Query.{side_from, old_side, new_side};
ghost use Rattle.sd_product.specs.Sides.{DenotesSide, AreSides};

use crate::relations::StateTerms;
use sd_base::{CloneOf, NoMemory, Var};
use sd_core::CoreProc;
use sd_term::{Bank, Head, TermId};
use sd_vcgen::{BodyTerms, Context, body_of};
use sqlite_items::Items;
use std::alloc::Global;

/// A body with the terms that stand for its inputs.
#[derive(Drop)]
pub(crate) struct Side {
    pub(crate) ins: Items<TermId>,
    pub(crate) globals: Items<TermId>,
    pub(crate) body: BodyTerms,
}

/// How many symbols the inputs of a procedure take. More than a `u32` counts are answered as out of memory.
fn input_count(context: &Context<'_>, procedure: &CoreProc) -> Result<u32, NoMemory>
    ensures { IfOk result (λ n. n ≡ query.input_count context.now.program.now procedure.now) }
{
    let ins = procedure.ins.len();
    let globals = context.program.globals.len();
    if ins > (u32::MAX / 2) as usize || globals > (u32::MAX / 2) as usize {
        return Err(NoMemory);
    }
    Ok((ins + globals) as u32)
}

/// A symbol for each variable, by ascending number.
fn put_symbols(
    alloc: Global,
    bank: &mut Bank,
    first: usize,
    variables: &[Var],
) -> Result<Items<TermId>, NoMemory>
    ensures symbols { IfOk result (λ ids. DenoteAll bank.new ids (symbols first (sorts_of variables.now))) }
    ensures kept { OnOk result (Extends bank.old bank.new) }
{
    let mut ids = Items::new(alloc);
    if first > u32::MAX as usize || variables.len() > u32::MAX as usize - first {
        return Err(NoMemory);
    }
    for (i, variable) in variables.iter().enumerate() {
        let sort = variable.sort.clone_of(alloc)?;
        let id = bank.put_tree(Head::Sym((first + i) as u32, sort), &[])?;
        ids.push(id)?;
    }
    Ok(ids)
}

/// The terms of a procedure: its inputs are symbols from `first` on, and its calls have symbols from `calls` on.
fn put_side(
    alloc: Global,
    bank: &mut Bank,
    context: &Context<'_>,
    procedure: &CoreProc,
    first: u32,
    calls: u32,
) -> Result<Side, NoMemory>
    requires { KeepsAll context.now }
    ensures side { IfOk result (λ s. DenotesSide bank.new s
        (side_from (context_of context.now) procedure.now first calls)) }
    ensures next { IfOk result (λ s. s.body.next ≡ calls + count_all (context_of context.now) procedure.now.body) }
    ensures kept { OnOk result (Extends bank.old bank.new) }
{
    let ins = put_symbols(alloc, bank, first as usize, procedure.ins.as_slice())?;
    let after = first as usize + procedure.ins.len();
    let globals = put_symbols(alloc, bank, after, context.program.globals.as_slice())?;
    let body = body_of(
        alloc,
        bank,
        context,
        procedure,
        calls,
        ins.as_slice(),
        globals.as_slice(),
    )?;
    Ok(Side { ins, globals, body })
}

/// The two bodies of a pair, with the old one's symbols first: old inputs, new inputs, old calls, new calls.
#[derive(Drop)]
pub(crate) struct Sides {
    pub(crate) old: Side,
    pub(crate) new: Side,
}

/// The terms of both procedures.
fn put_both(
    alloc: Global,
    bank: &mut Bank,
    old_context: &Context<'_>,
    new_context: &Context<'_>,
    old: &CoreProc,
    new: &CoreProc,
) -> Result<Sides, NoMemory>
    requires old { KeepsAll old_context.now }
    requires new { KeepsAll new_context.now }
    ensures old { IfOk result (λ s. DenotesSide bank.new s.old
        (old_side (context_of old_context.now) (context_of new_context.now) old.now new.now)) }
    ensures new { IfOk result (λ s. DenotesSide bank.new s.new
        (new_side (context_of old_context.now) (context_of new_context.now) old.now new.now)) }
{
    let old_count = input_count(old_context, old)?;
    let new_count = input_count(new_context, new)?;
    if new_count > u32::MAX - old_count {
        return Err(NoMemory);
    }
    let calls = old_count + new_count;
    let old_side = put_side(alloc, bank, old_context, old, 0, calls)?;
    let next = old_side.body.next;
    let new_side = put_side(alloc, bank, new_context, new, old_count, next)?;
    Ok(Sides {
        old: old_side,
        new: new_side,
    })
}

/// The bodies of two procedures, where both are there.
pub(crate) fn put_sides(
    alloc: Global,
    bank: &mut Bank,
    old_context: &Context<'_>,
    new_context: &Context<'_>,
    old: Option<&CoreProc>,
    new: Option<&CoreProc>,
) -> Result<Option<Sides>, NoMemory>
    requires old { KeepsAll old_context.now }
    requires new { KeepsAll new_context.now }
    ensures { IfOk result (AreSides (context_of old_context.now) (context_of new_context.now) bank.new
        (option_copied old.entry) (option_copied new.entry)) }
{
    match old {
        Some(old) => match new {
            Some(new) => {
                let sides = put_both(alloc, bank, old_context, new_context, old, new)?;
                Ok(Some(sides))
            }
            None => Ok(None),
        },
        None => Ok(None),
    }
}

/// The state that a side begins with.
pub(crate) fn side_inputs<'a>(side: &'a Side) -> StateTerms<'a>
    ensures ins { result.ins.now ≡ side.now.ins }
    ensures outs { result.outs.now ≡ [] }
    ensures globals { result.globals.now ≡ side.now.globals }
{
    StateTerms {
        ins: side.ins.as_slice(),
        outs: &[],
        globals: side.globals.as_slice(),
    }
}

/// The state that it ends in.
pub(crate) fn side_ends<'a>(side: &'a Side) -> StateTerms<'a>
    ensures ins { result.ins.now ≡ side.now.ins }
    ensures outs { result.outs.now ≡ side.now.body.outs }
    ensures globals { result.globals.now ≡ side.now.body.globals }
{
    StateTerms {
        ins: side.ins.as_slice(),
        outs: side.body.outs.as_slice(),
        globals: side.body.globals.as_slice(),
    }
}
