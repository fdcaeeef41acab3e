//! Calls in a body: each leaves a record of its terms.
ghost use Rattle.std.specs.Prelude.{◌≡◌, ◌<◌, ◌+◌, IfOk, OnOk, All, Some, length, map, slice_get, get_or};
ghost use Rattle.sd_base.specs.declared.Sort.TheVariants.{Bool as BoolSort};
ghost use Rattle.sd_core.specs.declared.Spot.TheVariants.{Global as GlobalSpot};
ghost use Rattle.sd_core.specs.Formed.{sorts_of};
ghost use Rattle.sd_core.specs.Store.{set_all};
ghost use Rattle.sd_term.specs.declared.node.Head.TheVariants as head;
ghost use Rattle.sd_term.specs.Tree.{leaf};
ghost use Rattle.sd_term.specs.Bank.{tree_at};
ghost use Rattle.sd_term.specs.Build.{Extends};
ghost use Rattle.sd_vcgen.specs.Body as spec;
ghost use Rattle.sd_vcgen.specs.Body.{symbols, site_flag, flag_symbols, call_symbols, modified_sorts, changed, site_of};
ghost use Rattle.sd_vcgen.specs.Numbers.{Denotes, DenoteAll, DenotesSite, AreWithin, IsSiteWithin, context_of, site_at, store_of, Stands, state_of, IsWithin};

use crate::body::{BodyState, assign, fail, put_guard};
use crate::expression::put_expressions;
use crate::spots::{Spots, put_truth, set_at};
use sd_base::{CloneOf, NoMemory, Sort, Var};
use sd_core::{CoreExpr, CoreProc, CoreProgram, Spot};
use sd_term::{Bank, Head, TermId};
use sqlite_items::Items;
use std::alloc::Global;

/// What bodies are run in: their program, and which of its procedures are infallible, by their places.
#[derive(Clone, Copy)]
pub struct Context<'a> {
    pub program: &'a CoreProgram,
    pub infallible: &'a [bool],
    /// By place: whether calls of the procedure are kept. The bodies of others are to run in place of their calls.
    pub kept: &'a [bool],
    /// In how many calls inside each other, run in place, a body stands.
    pub depth: u32,
}

/// A call that a body makes: where it counts, its arguments and the globals before it, and the outs, the globals
/// after it and the flag that it ends with.
#[derive(Drop)]
pub struct Site {
    /// The place of the called procedure in its program.
    pub callee: u32,
    pub guard: TermId,
    pub args: Items<TermId>,
    /// All globals, in order, and so `after`.
    pub before: Items<TermId>,
    pub outs: Items<TermId>,
    pub after: Items<TermId>,
    pub flag: TermId,
}

/// A call as it is written: what it receives its results in, the place of the called procedure, and its arguments.
#[derive(Clone, Copy)]
pub(crate) struct CallStatement<'a> {
    pub(crate) receivers: &'a [Spot],
    pub(crate) callee: u32,
    pub(crate) args: &'a [CoreExpr],
}

/// A call, where there is such a procedure.
pub(crate) fn run_call(
    bank: &mut Bank,
    context: &Context<'_>,
    state: &mut BodyState,
    path: TermId,
    call: &CallStatement<'_>,
) -> Result<(), NoMemory>
    requires state { IsWithin bank.old state.old }
    requires path { path < length bank.old }
    ensures state { OnOk result (Stands bank.new state.new
        (spec.call (context_of context.now) state.old.next (tree_at bank.old path)
        (slice_get context.now.program.now.procs call.now.callee) call.now.receivers.now call.now.callee
        call.now.args.now (state_of bank.old state.old))) }
    ensures next { OnOk result (state.new.next ≡ state.old.next + call_symbols
        ((context_of context.now).infallible call.now.callee)
        (slice_get context.now.program.now.procs call.now.callee)) }
    ensures kept { OnOk result (Extends bank.old bank.new) }
{
    match context.program.procs.get(call.callee as usize) {
        Some(procedure) => call_procedure(bank, context, state, path, procedure, call),
        None => Ok(()),
    }
}

fn call_procedure(
    bank: &mut Bank,
    context: &Context<'_>,
    state: &mut BodyState,
    path: TermId,
    procedure: &CoreProc,
    call: &CallStatement<'_>,
) -> Result<(), NoMemory>
    requires state { IsWithin bank.old state.old }
    requires path { path < length bank.old }
    ensures state { OnOk result (Stands bank.new state.new
        (spec.call (context_of context.now) state.old.next (tree_at bank.old path) (Some procedure.now)
        call.now.receivers.now call.now.callee call.now.args.now (state_of bank.old state.old))) }
    ensures next { OnOk result (state.new.next ≡ state.old.next + call_symbols
        ((context_of context.now).infallible call.now.callee) (Some procedure.now)) }
    ensures kept { OnOk result (Extends bank.old bank.new) }
{
    let made = put_site(bank, context, state, path, procedure, call)?;
    let Made { site, changed } = made;
    receive(
        bank,
        state,
        procedure,
        call.receivers,
        changed.as_slice(),
        site,
    )
}

// ---- the record

/// The record of a call, and what the call leaves in the globals that its callee modifies.
#[derive(Drop)]
struct Made {
    site: Site,
    changed: Items<TermId>,
}

fn put_site(
    bank: &mut Bank,
    context: &Context<'_>,
    state: &mut BodyState,
    path: TermId,
    procedure: &CoreProc,
    call: &CallStatement<'_>,
) -> Result<Made, NoMemory>
    requires state { IsWithin bank.old state.old }
    requires path { path < length bank.old }
    ensures site { IfOk result (λ made. DenotesSite bank.new made.site
        (site_of (context_of context.now) state.old.next (tree_at bank.old path) procedure.now call.now.callee
        call.now.args.now (state_of bank.old state.old))) }
    ensures changed { IfOk result (λ made. DenoteAll bank.new made.changed
        (changed context.now.program.now state.old.next procedure.now)) }
    ensures state { OnOk result (Stands bank.new state.new (state_of bank.old state.old)) }
    ensures next { OnOk result (state.new.next ≡ state.old.next + call_symbols
        ((context_of context.now).infallible call.now.callee) (Some procedure.now)) }
    ensures kept { OnOk result (Extends bank.old bank.new) }
{
    let alloc = bank.allocator();
    let guard = put_guard(bank, state.gone, path)?;
    let functions = context.program.functions.as_slice();
    let args = put_expressions(bank, functions, &state.spots, call.args)?;
    let before = Items::from_slice(alloc, state.spots.globals.as_slice())?;
    let results = put_results(bank, context, &mut state.next, procedure, call.callee)?;
    let Results {
        outs,
        changed,
        flag,
    } = results;
    let after = changed_globals(
        alloc,
        before.as_slice(),
        procedure.modifies.as_slice(),
        changed.as_slice(),
    )?;
    Ok(Made {
        site: Site {
            callee: call.callee,
            guard,
            args,
            before,
            outs,
            after,
            flag,
        },
        changed,
    })
}

/// The globals, with these terms at these places.
fn changed_globals(
    alloc: Global,
    globals: &[TermId],
    places: &[u32],
    news: &[TermId],
) -> Result<Items<TermId>, NoMemory>
    ensures { IfOk result (λ after. after ≡ set_all globals.now places.now news.now) }
{
    let mut after = Items::from_slice(alloc, globals)?;
    for (place, new) in places.iter().zip(news) {
        set_at(&mut after, *place as usize, *new);
    }
    Ok(after)
}

// ---- symbols

/// What a call ends with: its outs, the globals that its callee modifies, and its flag.
#[derive(Drop)]
struct Results {
    outs: Items<TermId>,
    changed: Items<TermId>,
    flag: TermId,
}

fn put_results(
    bank: &mut Bank,
    context: &Context<'_>,
    next: &mut u32,
    procedure: &CoreProc,
    callee: u32,
) -> Result<Results, NoMemory>
    ensures outs { IfOk result (λ r. DenoteAll bank.new r.outs (symbols next.old (sorts_of procedure.now.outs))) }
    ensures changed { IfOk result (λ r. DenoteAll bank.new r.changed
        (changed context.now.program.now next.old procedure.now)) }
    ensures flag { IfOk result (λ r. Denotes bank.new r.flag
        (site_flag ((context_of context.now).infallible callee)
        (next.old + (length procedure.now.outs + length procedure.now.modifies)))) }
    ensures next { OnOk result (next.new ≡ next.old + call_symbols ((context_of context.now).infallible callee)
        (Some procedure.now)) }
    ensures kept { OnOk result (Extends bank.old bank.new) }
{
    let alloc = bank.allocator();
    let out_sorts = sorts(alloc, procedure.outs.as_slice())?;
    let global_sorts = sorts(alloc, context.program.globals.as_slice())?;
    let changed_sorts = sorts_at(
        alloc,
        global_sorts.as_slice(),
        procedure.modifies.as_slice(),
    )?;
    let outs = put_symbols(bank, next, out_sorts.as_slice())?;
    let changed = put_symbols(bank, next, changed_sorts.as_slice())?;
    let flag = put_flag(bank, next, is_infallible(context, callee))?;
    Ok(Results {
        outs,
        changed,
        flag,
    })
}

/// Symbols of these types, by ascending number.
fn put_symbols(bank: &mut Bank, next: &mut u32, sorts: &[Sort]) -> Result<Items<TermId>, NoMemory>
    ensures terms { IfOk result (λ ids. DenoteAll bank.new ids (symbols next.old sorts.now)) }
    ensures next { OnOk result (next.new ≡ next.old + length sorts.now) }
    ensures kept { OnOk result (Extends bank.old bank.new) }
{
    let alloc = bank.allocator();
    let mut terms = Items::new(alloc);
    for sort in sorts {
        let symbol = put_symbol(bank, next, sort.clone_of(alloc)?)?;
        terms.push(symbol)?;
    }
    Ok(terms)
}

/// The flag of a call, which is down where the callee is infallible.
fn put_flag(bank: &mut Bank, next: &mut u32, infallible: bool) -> Result<TermId, NoMemory>
    ensures flag { IfOk result (λ id. Denotes bank.new id (site_flag infallible next.old)) }
    ensures next { OnOk result (next.new ≡ next.old + flag_symbols infallible) }
    ensures kept { OnOk result (Extends bank.old bank.new) }
{
    if infallible {
        return put_truth(bank, false);
    }
    put_symbol(bank, next, Sort::Bool)
}

/// The next symbol. A next number that no `u32` holds is answered as out of memory.
fn put_symbol(bank: &mut Bank, next: &mut u32, sort: Sort) -> Result<TermId, NoMemory>
    ensures symbol { IfOk result (λ id. Denotes bank.new id (leaf (head.Sym next.old sort))) }
    ensures next { OnOk result (next.new ≡ next.old + 1) }
    ensures kept { OnOk result (Extends bank.old bank.new) }
{
    let number = *next;
    *next = sum(number, 1)?;
    bank.put_tree(Head::Sym(number, sort), &[])
}

fn sum(a: u32, b: u32) -> Result<u32, NoMemory>
    ensures { IfOk result (λ c. c ≡ a + b) }
{
    match a.checked_add(b) {
        Some(c) => Ok(c),
        None => Err(NoMemory),
    }
}

fn is_infallible(context: &Context<'_>, callee: u32) -> bool
    ensures { result ≡ (context_of context.now).infallible callee }
{
    context
        .infallible
        .get(callee as usize)
        .copied()
        .unwrap_or(false)
}

/// The types of variables.
fn sorts(alloc: Global, variables: &[Var]) -> Result<Items<Sort>, NoMemory>
    ensures { IfOk result (λ sorts. sorts ≡ sorts_of variables.now) }
{
    let mut sorts = Items::new(alloc);
    for variable in variables {
        sorts.push(variable.sort.clone_of(alloc)?)?;
    }
    Ok(sorts)
}

/// The types at these places, and `bool` where there is none.
fn sorts_at(alloc: Global, sorts: &[Sort], places: &[u32]) -> Result<Items<Sort>, NoMemory>
    ensures { IfOk result (λ chosen. chosen ≡ map (λ i. get_or sorts.now i BoolSort) places.now) }
{
    let mut chosen = Items::new(alloc);
    for place in places {
        chosen.push(sort_at(alloc, sorts, *place)?)?;
    }
    Ok(chosen)
}

fn sort_at(alloc: Global, sorts: &[Sort], place: u32) -> Result<Sort, NoMemory>
    ensures { IfOk result (λ sort. sort ≡ get_or sorts.now place BoolSort) }
{
    match sorts.get(place as usize) {
        Some(sort) => sort.clone_of(alloc),
        None => Ok(Sort::Bool),
    }
}

// ---- what the caller takes over

/// The caller goes on with what a call leaves.
fn receive(
    bank: &mut Bank,
    state: &mut BodyState,
    procedure: &CoreProc,
    receivers: &[Spot],
    changed: &[TermId],
    site: Site,
) -> Result<(), NoMemory>
    requires state { IsWithin bank.old state.old }
    requires changed { All (λ id. id < length bank.old) changed.now }
    requires site { IsSiteWithin bank.old site }
    ensures state { OnOk result (Stands bank.new state.new
        (spec.receive (map (tree_at bank.old) changed.now) procedure.now receivers.now (site_at bank.old site)
        (state_of bank.old state.old))) }
    ensures next { OnOk result (state.new.next ≡ state.old.next) }
    ensures kept { OnOk result (Extends bank.old bank.new) }
{
    store_results(bank, &mut state.spots, procedure, receivers, changed, &site)?;
    let failed = bank.and(site.guard, site.flag)?;
    fail(bank, state, failed)?;
    state.sites.push(site)?;
    Ok(())
}

/// The globals that the callee modifies are taken over, and then the outs are stored.
fn store_results(
    bank: &mut Bank,
    spots: &mut Spots,
    procedure: &CoreProc,
    receivers: &[Spot],
    changed: &[TermId],
    site: &Site,
) -> Result<(), NoMemory>
    requires spots { AreWithin bank.old spots.old }
    requires changed { All (λ id. id < length bank.old) changed.now }
    requires site { IsSiteWithin bank.old site.now }
    ensures spots { OnOk result (store_of bank.new spots.new ≡ spec.assign (tree_at bank.old site.now.guard)
        (spec.assign (tree_at bank.old site.now.guard) (store_of bank.old spots.old)
        (map GlobalSpot procedure.now.modifies) (map (tree_at bank.old) changed.now)) receivers.now
        (map (tree_at bank.old) site.now.outs)) }
    ensures within { OnOk result (AreWithin bank.new spots.new) }
    ensures kept { OnOk result (Extends bank.old bank.new) }
{
    let globals = global_spots(bank.allocator(), procedure.modifies.as_slice())?;
    assign(bank, spots, site.guard, globals.as_slice(), changed)?;
    assign(bank, spots, site.guard, receivers, site.outs.as_slice())
}

fn global_spots(alloc: Global, places: &[u32]) -> Result<Items<Spot>, NoMemory>
    ensures { IfOk result (λ spots. spots ≡ map GlobalSpot places.now) }
{
    let mut spots = Items::new(alloc);
    for place in places {
        spots.push(Spot::Global(*place))?;
    }
    Ok(spots)
}
