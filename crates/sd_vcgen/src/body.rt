//! The statements of a body run on terms, under a path that says when they are reached.
ghost use Rattle.std.specs.Prelude.{◌≡◌, ◌<◌, ◌+◌, [], ◌∷◌, ◌++◌, IfOk, OnOk, All, length, map};
ghost use Rattle.sd_core.specs.declared.CoreStmt.{Assign, Assume};
ghost use Rattle.sd_core.specs.Run.{out_spots};
ghost use Rattle.sd_core.specs.Store.{read};
ghost use Rattle.sd_term.specs.declared.node.Head.TheVariants as head;
ghost use Rattle.sd_term.specs.Tree.{leaf};
ghost use Rattle.sd_term.specs.Bank.{tree_at};
ghost use Rattle.sd_term.specs.Build.{Extends, not_of, and_of};
ghost use Rattle.sd_vcgen.specs.Body as spec;
ghost use Rattle.sd_vcgen.specs.Body.{nothing, term_in, guard_of, assign, step, all_steps, begun, count, count_all};
ghost use Rattle.sd_vcgen.specs.Numbers.{Denotes, DenoteAll, AreWithin, store_of, AreTermsOf, Stands, state_of, IsWithin, context_of, KeepsAll};

use crate::call::{CallStatement, Context, Site, run_call};
use crate::expression::{put_expression, put_expressions};
use crate::spots::{Spots, hold, put_slot, put_spot, put_truth};
use sd_base::{CloneOf, NoMemory, Var};
use sd_core::{CoreExpr, CoreProc, CoreStmt, Spot};
use sd_term::{Bank, Head, TermId};
use sqlite_items::Items;
use std::alloc::Global;

/// The terms of a body: what its out-parameters and the globals hold at its end, where it fails an assertion, what it
/// assumes, and its calls.
#[derive(Drop)]
pub struct BodyTerms {
    pub outs: Items<TermId>,
    pub globals: Items<TermId>,
    pub flag: TermId,
    pub assumes: Items<TermId>,
    pub sites: Items<Site>,
    /// The number after those of its symbols.
    pub next: u32,
}

/// What the spots hold, whether an assertion has failed, whether the body has ended, what it assumes, its calls, and
/// the number of its next symbol.
#[derive(Drop)]
pub(crate) struct BodyState {
    pub(crate) spots: Spots,
    pub(crate) flag: TermId,
    pub(crate) gone: TermId,
    pub(crate) assumes: Items<TermId>,
    pub(crate) sites: Items<Site>,
    pub(crate) next: u32,
}

/// The terms of a procedure's body, from these terms of its in-parameters and of the globals, with symbols by
/// ascending number from `first` on. Where no `u32` holds the next number, it is answered as out of memory.
///
/// A statement counts where its path is taken, which joins the conditions of the choices around it, and where the
/// body hasn't ended before it. An assignment keeps the old term elsewhere (Lahiri and others 2012). What a call
/// leaves in the outs of its callee and in the globals that the callee modifies are symbols, and so is its flag where
/// the callee isn't infallible (Hawblitzel and others 2013). No body is run in place of a call yet, so all calls are to
/// be kept.
pub fn body_of(
    alloc: Global,
    bank: &mut Bank,
    context: &Context<'_>,
    procedure: &CoreProc,
    first: u32,
    ins: &[TermId],
    globals: &[TermId],
) -> Result<BodyTerms, NoMemory>
    requires ins { All (λ id. id < length bank.old) ins.now }
    requires globals { All (λ id. id < length bank.old) globals.now }
    requires calls { KeepsAll context.now }
    ensures terms { IfOk result (λ terms. AreTermsOf bank.new terms procedure.now
        (spec.body_of (context_of context.now) procedure.now first (map (tree_at bank.old) ins.now)
        (map (tree_at bank.old) globals.now))) }
    ensures next { IfOk result (λ terms. terms.next ≡ first + count_all (context_of context.now) procedure.now.body) }
    ensures kept { OnOk result (Extends bank.old bank.new) }
{
    let mut state = begin(alloc, bank, procedure, first, ins, globals)?;
    let path = put_truth(bank, true)?;
    run_statements(bank, context, &mut state, path, procedure.body.as_slice())?;
    let outs = put_outs(alloc, bank, &state.spots, procedure)?;
    let BodyState {
        spots,
        flag,
        assumes,
        sites,
        next,
        ..
    } = state;
    Ok(BodyTerms {
        outs,
        globals: spots.globals,
        flag,
        assumes,
        sites,
        next,
    })
}

/// Where a body begins.
fn begin(
    alloc: Global,
    bank: &mut Bank,
    procedure: &CoreProc,
    first: u32,
    ins: &[TermId],
    globals: &[TermId],
) -> Result<BodyState, NoMemory>
    requires ins { All (λ id. id < length bank.old) ins.now }
    requires globals { All (λ id. id < length bank.old) globals.now }
    ensures state { IfOk result (λ s. Stands bank.new s
        (begun procedure.now (map (tree_at bank.old) ins.now) (map (tree_at bank.old) globals.now))) }
    ensures next { IfOk result (λ s. s.next ≡ first) }
    ensures kept { OnOk result (Extends bank.old bank.new) }
{
    let flag = put_truth(bank, false)?;
    let gone = put_truth(bank, false)?;
    let mut slots = Items::from_slice(alloc, ins)?;
    put_starts(alloc, bank, &mut slots, procedure.outs.as_slice())?;
    put_starts(alloc, bank, &mut slots, procedure.locals.as_slice())?;
    let globals = Items::from_slice(alloc, globals)?;
    Ok(BodyState {
        spots: Spots { slots, globals },
        flag,
        gone,
        assumes: Items::new(alloc),
        sites: Items::new(alloc),
        next: first,
    })
}

/// Adds a slot for each variable, with the starting value of its type.
fn put_starts(
    alloc: Global,
    bank: &mut Bank,
    slots: &mut Items<TermId>,
    variables: &[Var],
) -> Result<(), NoMemory>
    requires { All (λ id. id < length bank.old) slots.old }
    ensures slots { OnOk result (DenoteAll bank.new slots.new
        (map (tree_at bank.old) slots.old ++ map (λ v. leaf (head.Start v.sort)) variables.now)) }
    ensures kept { OnOk result (Extends bank.old bank.new) }
{
    for variable in variables {
        let start = bank.put_tree(Head::Start(variable.sort.clone_of(alloc)?), &[])?;
        slots.push(start)?;
    }
    Ok(())
}

/// What the out-parameters hold.
fn put_outs(
    alloc: Global,
    bank: &mut Bank,
    spots: &Spots,
    procedure: &CoreProc,
) -> Result<Items<TermId>, NoMemory>
    requires { AreWithin bank.old spots.now }
    ensures terms { IfOk result (λ ids. DenoteAll bank.new ids
        (map (read nothing (store_of bank.old spots.now)) (out_spots procedure.now))) }
    ensures spots { OnOk result (AreWithin bank.new spots.now) }
    ensures kept { OnOk result (Extends bank.old bank.new) }
{
    let first = procedure.ins.as_slice().len();
    let outs = procedure.outs.as_slice();
    let mut terms = Items::new(alloc);
    for i in 0..outs.len() {
        let term = put_slot(bank, spots, first + i)?;
        terms.push(term)?;
    }
    Ok(terms)
}

// ---- statements

/// The term that is true where a statement on the path counts.
pub(crate) fn put_guard(bank: &mut Bank, gone: TermId, path: TermId) -> Result<TermId, NoMemory>
    requires gone { gone < length bank.old }
    requires path { path < length bank.old }
    ensures term { IfOk result (λ id. Denotes bank.new id
        (and_of (tree_at bank.old path) (not_of (tree_at bank.old gone)))) }
    ensures kept { OnOk result (Extends bank.old bank.new) }
{
    let going = bank.not(gone)?;
    let guard = bank.and(path, going)?;
    Ok(guard)
}

/// Each target takes its new term where the guard is true.
pub(crate) fn assign(
    bank: &mut Bank,
    spots: &mut Spots,
    guard: TermId,
    targets: &[Spot],
    news: &[TermId],
) -> Result<(), NoMemory>
    requires spots { AreWithin bank.old spots.old }
    requires guard { guard < length bank.old }
    requires news { All (λ id. id < length bank.old) news.now }
    ensures spots { OnOk result (store_of bank.new spots.new ≡ spec.assign (tree_at bank.old guard)
        (store_of bank.old spots.old) targets.now (map (tree_at bank.old) news.now)) }
    ensures within { OnOk result (AreWithin bank.new spots.new) }
    ensures kept { OnOk result (Extends bank.old bank.new) }
{
    for (target, new) in targets.iter().zip(news) {
        assign_one(bank, spots, guard, *target, *new)?;
    }
    Ok(())
}

fn assign_one(
    bank: &mut Bank,
    spots: &mut Spots,
    guard: TermId,
    target: Spot,
    new: TermId,
) -> Result<(), NoMemory>
    requires spots { AreWithin bank.old spots.old }
    requires guard { guard < length bank.old }
    requires new { new < length bank.old }
    ensures spots { OnOk result (store_of bank.new spots.new ≡ spec.assign (tree_at bank.old guard)
        (store_of bank.old spots.old) (target ∷ []) (tree_at bank.old new ∷ [])) }
    ensures within { OnOk result (AreWithin bank.new spots.new) }
    ensures kept { OnOk result (Extends bank.old bank.new) }
{
    let old = put_spot(bank, spots, target)?;
    let chosen = bank.ite(guard, new, old)?;
    hold(spots, target, chosen);
    Ok(())
}

fn run_assignment(
    bank: &mut Bank,
    context: &Context<'_>,
    state: &mut BodyState,
    path: TermId,
    targets: &[Spot],
    rights: &[CoreExpr],
) -> Result<(), NoMemory>
    requires state { IsWithin bank.old state.old }
    requires path { path < length bank.old }
    ensures state { OnOk result (Stands bank.new state.new
        (step (context_of context.now) (Assign targets.now rights.now) state.old.next (tree_at bank.old path)
        (state_of bank.old state.old))) }
    ensures next { OnOk result (state.new.next ≡ state.old.next) }
    ensures kept { OnOk result (Extends bank.old bank.new) }
{
    let functions = context.program.functions.as_slice();
    let news = put_expressions(bank, functions, &state.spots, rights)?;
    let guard = put_guard(bank, state.gone, path)?;
    assign(bank, &mut state.spots, guard, targets, news.as_slice())?;
    Ok(())
}

fn run_assumption(
    bank: &mut Bank,
    context: &Context<'_>,
    state: &mut BodyState,
    path: TermId,
    condition: &CoreExpr,
) -> Result<(), NoMemory>
    requires state { IsWithin bank.old state.old }
    requires path { path < length bank.old }
    ensures state { OnOk result (Stands bank.new state.new
        (step (context_of context.now) (Assume condition.now) state.old.next (tree_at bank.old path)
        (state_of bank.old state.old))) }
    ensures next { OnOk result (state.new.next ≡ state.old.next) }
    ensures kept { OnOk result (Extends bank.old bank.new) }
{
    let functions = context.program.functions.as_slice();
    let holds = put_expression(bank, functions, &state.spots, condition)?;
    let guard = put_guard(bank, state.gone, path)?;
    let elsewhere = bank.not(guard)?;
    let assumed = bank.or(elsewhere, holds)?;
    state.assumes.push(assumed)?;
    Ok(())
}

/// The body ends where the guard is true, with its flag up.
pub(crate) fn fail(bank: &mut Bank, state: &mut BodyState, guard: TermId) -> Result<(), NoMemory>
    requires state { IsWithin bank.old state.old }
    requires guard { guard < length bank.old }
    ensures state { OnOk result (Stands bank.new state.new
        (spec.fail (tree_at bank.old guard) (state_of bank.old state.old))) }
    ensures next { OnOk result (state.new.next ≡ state.old.next) }
    ensures kept { OnOk result (Extends bank.old bank.new) }
{
    let flag = bank.or(state.flag, guard)?;
    let gone = bank.or(state.gone, guard)?;
    state.flag = flag;
    state.gone = gone;
    Ok(())
}

/// The body ends where the guard is true.
fn leave(bank: &mut Bank, state: &mut BodyState, guard: TermId) -> Result<(), NoMemory>
    requires state { IsWithin bank.old state.old }
    requires guard { guard < length bank.old }
    ensures state { OnOk result (Stands bank.new state.new
        (spec.leave (tree_at bank.old guard) (state_of bank.old state.old))) }
    ensures next { OnOk result (state.new.next ≡ state.old.next) }
    ensures kept { OnOk result (Extends bank.old bank.new) }
{
    state.gone = bank.or(state.gone, guard)?;
    Ok(())
}

fn run_failure(bank: &mut Bank, state: &mut BodyState, path: TermId) -> Result<(), NoMemory>
    requires state { IsWithin bank.old state.old }
    requires path { path < length bank.old }
    ensures state { OnOk result (Stands bank.new state.new
        (spec.fail (guard_of (tree_at bank.old path) (state_of bank.old state.old)) (state_of bank.old state.old))) }
    ensures next { OnOk result (state.new.next ≡ state.old.next) }
    ensures kept { OnOk result (Extends bank.old bank.new) }
{
    let guard = put_guard(bank, state.gone, path)?;
    fail(bank, state, guard)
}

fn run_return(bank: &mut Bank, state: &mut BodyState, path: TermId) -> Result<(), NoMemory>
    requires state { IsWithin bank.old state.old }
    requires path { path < length bank.old }
    ensures state { OnOk result (Stands bank.new state.new
        (spec.leave (guard_of (tree_at bank.old path) (state_of bank.old state.old)) (state_of bank.old state.old))) }
    ensures next { OnOk result (state.new.next ≡ state.old.next) }
    ensures kept { OnOk result (Extends bank.old bank.new) }
{
    let guard = put_guard(bank, state.gone, path)?;
    leave(bank, state, guard)
}

/// The paths of the two branches of a choice.
#[derive(Drop)]
struct Branches {
    then_path: TermId,
    else_path: TermId,
}

fn put_branches(
    bank: &mut Bank,
    context: &Context<'_>,
    state: &BodyState,
    path: TermId,
    condition: &CoreExpr,
) -> Result<Branches, NoMemory>
    requires state { IsWithin bank.old state.now }
    requires path { path < length bank.old }
    ensures then_path { IfOk result (λ b. Denotes bank.new b.then_path
        (and_of (tree_at bank.old path) (term_in context.now.program.now.functions (state_of bank.old state.now).store
        condition.now))) }
    ensures else_path { IfOk result (λ b. Denotes bank.new b.else_path
        (and_of (tree_at bank.old path) (not_of
        (term_in context.now.program.now.functions (state_of bank.old state.now).store condition.now)))) }
    ensures state { OnOk result (IsWithin bank.new state.now) }
    ensures kept { OnOk result (Extends bank.old bank.new) }
{
    let functions = context.program.functions.as_slice();
    let holds = put_expression(bank, functions, &state.spots, condition)?;
    let then_path = bank.and(path, holds)?;
    let fails = bank.not(holds)?;
    let else_path = bank.and(path, fails)?;
    Ok(Branches {
        then_path,
        else_path,
    })
}

#[cycle(statement)]
fn run_statement(
    bank: &mut Bank,
    context: &Context<'_>,
    state: &mut BodyState,
    path: TermId,
    statement: &CoreStmt,
) -> Result<(), NoMemory>
    requires state { IsWithin bank.old state.old }
    requires path { path < length bank.old }
    ensures state { OnOk result (Stands bank.new state.new
        (step (context_of context.now) statement.now state.old.next (tree_at bank.old path)
        (state_of bank.old state.old))) }
    ensures next { OnOk result (state.new.next ≡ state.old.next + count (context_of context.now) statement.now) }
    ensures within { OnOk result (IsWithin bank.new state.new) }
    ensures kept { OnOk result (Extends bank.old bank.new) }
{
    match statement {
        CoreStmt::Assign(targets, rights) => run_assignment(
            bank,
            context,
            state,
            path,
            targets.as_slice(),
            rights.as_slice(),
        ),
        CoreStmt::If(condition, yes, no) => {
            let paths = put_branches(bank, context, state, path, condition)?;
            run_statements(bank, context, state, paths.then_path, yes.as_slice())?;
            run_statements(bank, context, state, paths.else_path, no.as_slice())
        }
        CoreStmt::Call(receivers, callee, args) => {
            let call = CallStatement {
                receivers: receivers.as_slice(),
                callee: *callee,
                args: args.as_slice(),
            };
            run_call(bank, context, state, path, &call)
        }
        CoreStmt::Assume(condition) => run_assumption(bank, context, state, path, condition),
        CoreStmt::Fail => run_failure(bank, state, path),
        CoreStmt::Return => run_return(bank, state, path),
    }
}

#[cycle(statement)]
fn run_statements(
    bank: &mut Bank,
    context: &Context<'_>,
    state: &mut BodyState,
    path: TermId,
    statements: &[CoreStmt],
) -> Result<(), NoMemory>
    requires state { IsWithin bank.old state.old }
    requires path { path < length bank.old }
    ensures state { OnOk result (Stands bank.new state.new
        (all_steps (context_of context.now) statements.now state.old.next (tree_at bank.old path)
        (state_of bank.old state.old))) }
    ensures next { OnOk result (state.new.next ≡ state.old.next + count_all (context_of context.now) statements.now) }
    ensures within { OnOk result (IsWithin bank.new state.new) }
    ensures kept { OnOk result (Extends bank.old bank.new) }
{
    for statement in statements {
        run_statement(bank, context, state, path, statement)?;
    }
    Ok(())
}
