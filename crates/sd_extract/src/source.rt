//! A procedure with its body, and where its variables are kept.
ghost use Rattle.std.specs.Prelude.{◌≡◌, ◌+◌, ◌++◌, length, set, IfOk, OnOk};
ghost use Rattle.sd_ast.specs.Tree.{names_of};
ghost use Rattle.sd_core.specs.Run.{slots_from};
ghost use Rattle.sd_core.specs.Store.{set_all};
ghost use Rattle.sd_extract.specs.Extract.{globals_from};
ghost use Rattle.sd_extract.specs.Sources.{source_in, AreSlots, IsLayout};

use crate::frame::push_slots;
use crate::table::{NameTable, push_names};
use sd_ast::{Body, Head, Proc};
use sd_base::{NoMemory, Var};
use sd_core::Spot;
use sqlite_items::Items;
use std::alloc::Global;

/// The globals of a program.
#[derive(Drop)]
pub(crate) struct Globals {
    pub(crate) vars: Items<Var>,
    pub(crate) names: NameTable,
    pub(crate) spots: Items<Spot>,
}

/// A procedure with a body, its number, and the globals that it modifies.
#[derive(Drop)]
pub(crate) struct Source<'a> {
    pub(crate) declared: &'a Proc,
    pub(crate) head: &'a Head,
    pub(crate) body: &'a Body,
    pub(crate) number: u32,
    pub(crate) globals: &'a Globals,
    pub(crate) modifies: Items<u32>,
    pub(crate) copied: Items<Var>,
}

/// The slots of a procedure: its ins, its outs and locals, and the copies of globals. Its loops have all of these,
/// and after them outs and locals of their own.
#[derive(Drop)]
pub(crate) struct Slots {
    pub(crate) ins: Items<Spot>,
    pub(crate) state: Items<Spot>,
    pub(crate) copies: Items<Spot>,
    pub(crate) turn: Items<Spot>,
    /// The first slot after the copies.
    pub(crate) hidden: u32,
    /// The first slot after a loop's own outs and locals.
    pub(crate) left: u32,
}

/// Where the names of a procedure are kept: in its body, in its loops, and in its contract.
#[derive(Drop)]
pub(crate) struct Layout {
    pub(crate) slots: Slots,
    pub(crate) names: NameTable,
    pub(crate) places: Items<Spot>,
    pub(crate) turn_places: Items<Spot>,
    pub(crate) contract_names: NameTable,
    pub(crate) contract_places: Items<Spot>,
    pub(crate) entry: Items<Spot>,
}

/// A slot for each variable, from one on. The first slot after them comes back.
#[tactic(auto, using(crate::proofs::CodeStatements::upto_from))]
fn push_vars(first: u32, vars: &[Var], spots: &mut Items<Spot>) -> Result<u32, NoMemory>
    ensures spots { OnOk result (spots.new ≡ spots.old ++ slots_from first vars.now) }
    ensures next { IfOk result (λ next. next ≡ first + length vars.now) }
{
    push_slots(first, vars.len(), spots)
}

/// A slot for each out-parameter and local, from one on. The first slot after them comes back.
fn push_state(
    first: u32,
    outs: &[Var],
    locals: &[Var],
    spots: &mut Items<Spot>,
) -> Result<u32, NoMemory>
    ensures spots { OnOk result (spots.new ≡ spots.old ++ slots_from first (outs.now ++ locals.now)) }
    ensures next { IfOk result (λ next. next ≡ first + length (outs.now ++ locals.now)) }
{
    let next = push_vars(first, outs, spots)?;
    push_vars(next, locals, spots)
}

fn joined(alloc: Global, first: &[Spot], second: &[Spot]) -> Result<Items<Spot>, NoMemory>
    ensures { IfOk result (λ spots. spots ≡ first.now ++ second.now) }
{
    let mut spots = Items::from_slice(alloc, first)?;
    spots.append(Items::from_slice(alloc, second)?)?;
    Ok(spots)
}

/// The spots of globals, with other spots for some of them.
fn replaced(
    alloc: Global,
    spots: &[Spot],
    places: &[u32],
    new: &[Spot],
) -> Result<Items<Spot>, NoMemory>
    ensures { IfOk result (λ list. list ≡ set_all spots.now places.now new.now) }
{
    let mut list = Vec::from_slice(alloc, spots)?;
    let mut next = 0;
    'places: while next < places.len() && next < new.len() {
        replace(&mut list, places[next], new[next]);
        next += 1;
    }
    Ok(Items::from_vec(list))
}

fn replace(list: &mut Vec<Spot>, place: u32, new: Spot)
    ensures { list.new.items ≡ set list.old.items place new }
{
    let place = place as usize;
    if place < list.len() {
        list[place] = new;
    }
}

fn slots_of(alloc: Global, source: &Source) -> Result<Slots, NoMemory>
    ensures { IfOk result (AreSlots (source_in source.now)) }
{
    let outs = source.head.outs.as_slice();
    let locals = source.body.locals.as_slice();
    let mut ins = Items::new(alloc);
    let first = push_vars(0, source.head.ins.as_slice(), &mut ins)?;
    let mut state = Items::new(alloc);
    let copy = push_state(first, outs, locals, &mut state)?;
    let mut copies = Items::new(alloc);
    let hidden = push_vars(copy, source.copied.as_slice(), &mut copies)?;
    let mut turn = Items::new(alloc);
    let left = push_state(hidden, outs, locals, &mut turn)?;
    Ok(Slots {
        ins,
        state,
        copies,
        turn,
        hidden,
        left,
    })
}

/// The names of the ins, outs and locals of a body.
fn body_names(alloc: Global, head: &Head, body: &Body) -> Result<NameTable, NoMemory>
    ensures { IfOk result (λ table. table ≡ names_of head.now.ins ++ names_of (head.now.outs ++ body.now.locals)) }
{
    let mut names = Items::new(alloc);
    push_names(alloc, &mut names, head.ins.as_slice())?;
    push_names(alloc, &mut names, head.outs.as_slice())?;
    push_names(alloc, &mut names, body.locals.as_slice())?;
    NameTable::new(alloc, names)
}

/// The names of the ins and outs of a declaration.
fn head_names(alloc: Global, head: &Head) -> Result<NameTable, NoMemory>
    ensures { IfOk result (λ table. table ≡ names_of head.now.ins ++ names_of head.now.outs) }
{
    let mut names = Items::new(alloc);
    push_names(alloc, &mut names, head.ins.as_slice())?;
    push_names(alloc, &mut names, head.outs.as_slice())?;
    NameTable::new(alloc, names)
}

/// The spots of the ins and outs of a procedure.
fn head_places(alloc: Global, head: &Head) -> Result<Items<Spot>, NoMemory>
    ensures { IfOk result
        (λ places. places ≡ slots_from 0 head.now.ins ++ slots_from (length head.now.ins) head.now.outs) }
{
    let mut places = Items::new(alloc);
    let next = push_vars(0, head.ins.as_slice(), &mut places)?;
    push_vars(next, head.outs.as_slice(), &mut places)?;
    Ok(places)
}

/// Where the names of a procedure are kept.
pub(crate) fn layout_of(alloc: Global, source: &Source) -> Result<Layout, NoMemory>
    requires { source.now.globals.now.spots ≡ globals_from 0 source.now.globals.now.vars }
    ensures { IfOk result (IsLayout (source_in source.now)) }
{
    let slots = slots_of(alloc, source)?;
    let places = joined(alloc, slots.ins.as_slice(), slots.state.as_slice())?;
    let turn_places = joined(alloc, slots.ins.as_slice(), slots.turn.as_slice())?;
    let entry = replaced(
        alloc,
        source.globals.spots.as_slice(),
        source.modifies.as_slice(),
        slots.copies.as_slice(),
    )?;
    let names = body_names(alloc, source.head, source.body)?;
    let contract_names = head_names(alloc, &source.declared.head)?;
    let contract_places = head_places(alloc, source.head)?;
    Ok(Layout {
        slots,
        names,
        places,
        turn_places,
        contract_names,
        contract_places,
        entry,
    })
}
