//! The procedures of loops.
ghost use Rattle.std.specs.Prelude.{◌≡◌, ◌+◌, ◌++◌, [], ◌∷◌, false, map, IfOk, OnOk, if◌then◌else◌};
ghost use Rattle.sd_core.specs.declared.tree.Spot.TheVariants.{Slot};
ghost use Rattle.sd_core.specs.declared.tree.CoreExpr.{Truth as Literal};
ghost use Rattle.sd_meaning.specs.Run.{kinds_of};
ghost use Rattle.sd_meaning.specs.Routine.{clauses_of};
ghost use Rattle.sd_extract.specs.Extract as spec;
ghost use Rattle.sd_extract.specs.Extract.{counts_each, copies_of, state_of, loops_in, each_loop_in};
ghost use Rattle.sd_extract.specs.Scopes.{frame_in, spots_of};
ghost use Rattle.sd_extract.specs.Counted.{counts_in, has_return_among};
ghost use Rattle.sd_extract.specs.Numbered.{program_of, number_of};
ghost use Rattle.sd_extract.specs.Sources.{source_in, start_at, turn_with, loop_with, left_out, copies_among};
ghost use Rattle.sd_extract.specs.Sources.{AreGlobals, IsLayout};

use crate::callees::Callees;
use crate::clause::push_invariants;
use crate::counts::{Counts, add, count_stmts};
use crate::expression::expression;
use crate::frame::{Frame, loop_call, push_reads, put};
use crate::frames::turn_frame;
use crate::hidden::push_hidden;
use crate::naming::{copy_name, left_out_name, loop_name};
use crate::source::{Layout, Source};
use crate::statement::push_stmts;
use sd_ast::{Expr, Invariant, Stmt, StmtKind};
use sd_base::{CloneOf, NoMemory, Sort, Var, clone_items};
use sd_core::{CoreExpr, CoreProc, CoreStmt, Spot};
use sqlite_items::Items;
use std::alloc::Global;

/// The counts where statements begin, from the first slot of their hidden locals, what they take, and the number of
/// the next loop.
pub(crate) fn start(first: u32, inside: Counts, loops: u32) -> Result<Counts, NoMemory>
    ensures { IfOk result (λ at. counts_in at ≡ start_at first inside.args loops) }
{
    Ok(Counts {
        calls: 0,
        args: first,
        lefts: add(first, inside.args)?,
        loops,
    })
}

/// A procedure with a body, and where its variables are kept.
#[derive(Clone, Copy, Drop)]
pub(crate) struct Placed<'a> {
    pub(crate) source: &'a Source<'a>,
    pub(crate) layout: &'a Layout,
}

/// A loop of a text.
#[derive(Clone, Copy, Drop)]
struct WhileLoop<'a> {
    guard: &'a Expr,
    invariants: &'a [Invariant],
    body: &'a [Stmt],
}

/// A loop with its number, where it says whether it left the procedure, and where the counts of its turn begin.
#[derive(Clone, Copy, Drop)]
struct Loop<'a> {
    number: u32,
    left: Option<Spot>,
    at: Counts,
    parts: WhileLoop<'a>,
}

/// A turn of a loop, and the loop again.
fn turn(
    alloc: Global,
    callees: &Callees,
    frame: &Frame,
    inner: &Loop,
) -> Result<Items<CoreStmt>, NoMemory>
    ensures { IfOk result (λ ss. ss ≡ turn_with (program_of callees.now) (number_of callees.now) (frame_in frame.now)
        (counts_in inner.now.at) inner.now.number (spots_of inner.now.left) (kinds_of inner.now.parts.body.now)) }
{
    let mut out = Items::new(alloc);
    push_stmts(alloc, callees, frame, inner.at, inner.parts.body, &mut out)?;
    out.push(loop_call(alloc, frame, inner.number, inner.left)?)?;
    Ok(out)
}

/// A loop hasn't left its procedure at first.
fn push_not_left(
    alloc: Global,
    left: Option<Spot>,
    out: &mut Items<CoreStmt>,
) -> Result<(), NoMemory>
    ensures { OnOk result (out.new ≡ out.old ++ spec.put (spots_of left) (map (λ p. Literal false) (spots_of left))) }
{
    let Some(spot) = left else {
        return Ok(());
    };
    let mut spots = Items::new(alloc);
    spots.push(spot)?;
    let mut es = Items::new(alloc);
    es.push(CoreExpr::Truth(false))?;
    put(spots, es, out)
}

/// The statements of a loop, which receives its outs and locals in other slots.
fn loop_stmts(
    alloc: Global,
    callees: &Callees,
    frame: &Frame,
    received: &[Spot],
    inner: &Loop,
) -> Result<Items<CoreStmt>, NoMemory>
    ensures { IfOk result (λ ss. ss ≡ loop_with (program_of callees.now) (number_of callees.now) (frame_in frame.now)
        received.now (counts_in inner.now.at) inner.now.number inner.now.parts.guard.now
        (clauses_of inner.now.parts.invariants.now) (spots_of inner.now.left) (kinds_of inner.now.parts.body.now)) }
{
    let mut out = Items::new(alloc);
    let mut es = Items::new(alloc);
    push_reads(received, &mut es)?;
    put(Items::from_slice(alloc, frame.state)?, es, &mut out)?;
    push_not_left(alloc, inner.left, &mut out)?;
    push_invariants(alloc, &frame.scope, inner.parts.invariants, &mut out)?;
    let holds = expression(alloc, &frame.scope, &inner.parts.guard.kind)?;
    let again = turn(alloc, callees, frame, inner)?;
    out.push(CoreStmt::If(holds, again, Items::new(alloc)))?;
    Ok(out)
}

/// The copies of the globals that a procedure modifies.
pub(crate) fn push_copies(
    alloc: Global,
    copied: &[Var],
    out: &mut Items<Var>,
) -> Result<(), NoMemory>
    ensures { OnOk result (out.new ≡ out.old ++ copies_among copied.now) }
{
    for var in copied {
        out.push(Var {
            name: copy_name(alloc, &var.name)?,
            sort: var.sort.clone_of(alloc)?,
        })?;
    }
    Ok(())
}

/// What a loop receives: the ins, the outs and locals, and the copies.
fn loop_ins(alloc: Global, source: &Source) -> Result<Items<Var>, NoMemory>
    ensures { IfOk result (λ ins. ins ≡ source.now.head.now.ins
        ++ (state_of (source_in source.now) ++ copies_of (source_in source.now))) }
{
    let mut ins = clone_items(alloc, &source.head.ins)?;
    ins.append(clone_items(alloc, &source.head.outs)?)?;
    ins.append(clone_items(alloc, &source.body.locals)?)?;
    push_copies(alloc, source.copied.as_slice(), &mut ins)?;
    Ok(ins)
}

/// What a loop gives back: the outs and locals, and maybe whether it left the procedure.
fn loop_outs(alloc: Global, source: &Source, returns: bool) -> Result<Items<Var>, NoMemory>
    ensures { IfOk result (λ outs. outs ≡ state_of (source_in source.now) ++ left_out returns) }
{
    let mut outs = clone_items(alloc, &source.head.outs)?;
    outs.append(clone_items(alloc, &source.body.locals)?)?;
    if returns {
        outs.push(Var {
            name: left_out_name(alloc)?,
            sort: Sort::Bool,
        })?;
    }
    Ok(outs)
}

/// The first slot of a loop's hidden locals.
fn first_hidden(layout: &Layout, returns: bool) -> Result<u32, NoMemory>
    ensures { IfOk result (λ first. first ≡ layout.now.slots.left + (if returns then 1 else 0)) }
{
    if returns {
        return add(layout.slots.left, 1);
    }
    Ok(layout.slots.left)
}

fn left_spot(layout: &Layout, returns: bool) -> Option<Spot>
    ensures { spots_of result ≡ (if returns then Slot layout.now.slots.left ∷ [] else []) }
{
    if returns {
        return Some(Spot::Slot(layout.slots.left));
    }
    None
}

/// The counts of a loop's hidden locals in text order, where only loops were counted before.
fn only_loops(loops: u32) -> Counts
    ensures { counts_in result ≡ record { calls = 0; args = 0; lefts = 0; loops = loops } }
{
    Counts {
        calls: 0,
        args: 0,
        lefts: 0,
        loops,
    }
}

/// The hidden locals of a loop, where so many loops were counted before.
fn hidden_locals(
    alloc: Global,
    callees: &Callees,
    loops: u32,
    body: &[Stmt],
) -> Result<Items<Var>, NoMemory>
    ensures { IfOk result (λ locals. locals ≡ spec.hidden (program_of callees.now)
        (record { calls = 0; args = 0; lefts = 0; loops = loops }) (kinds_of body.now)) }
{
    let mut locals = Items::new(alloc);
    push_hidden(alloc, callees, only_loops(loops), body, &mut locals)?;
    Ok(locals)
}

/// The procedure of a loop with this number.
fn loop_proc(
    alloc: Global,
    callees: &Callees,
    placed: &Placed,
    number: u32,
    parts: &WhileLoop,
) -> Result<CoreProc, NoMemory>
    requires globals { AreGlobals placed.now.source.now.globals.now }
    requires layout { IsLayout (source_in placed.now.source.now) placed.now.layout.now }
    ensures { IfOk result
        (λ p. p ≡ spec.loop_proc (program_of callees.now) (number_of callees.now) (source_in placed.now.source.now)
        number parts.now.guard.now (clauses_of parts.now.invariants.now)
        (has_return_among (kinds_of parts.now.body.now)) (kinds_of parts.now.body.now)) }
{
    let source = placed.source;
    let layout = placed.layout;
    let inside = count_stmts(parts.body)?;
    let frame = turn_frame(source, layout);
    let at = start(
        first_hidden(layout, inside.returns)?,
        inside.counts,
        add(1, number)?,
    )?;
    let inner = Loop {
        number,
        left: left_spot(layout, inside.returns),
        at,
        parts: *parts,
    };
    let received = layout.slots.state.as_slice();
    let stmts = loop_stmts(alloc, callees, &frame, received, &inner)?;
    let place = number.saturating_sub(source.number);
    let locals = hidden_locals(alloc, callees, place, parts.body)?;
    Ok(CoreProc {
        name: loop_name(alloc, &source.head.name, place)?,
        parent: Some((source.number, place)),
        ins: loop_ins(alloc, source)?,
        outs: loop_outs(alloc, source, inside.returns)?,
        locals,
        modifies: Items::from_slice(alloc, source.modifies.as_slice())?,
        body: stmts,
    })
}

/// The procedures of the loops of a statement, where the next loop has this number. The number of the next loop comes
/// back.
#[cycle(loops)]
fn push_loops_of(
    alloc: Global,
    callees: &Callees,
    placed: &Placed,
    number: u32,
    kind: &StmtKind,
    out: &mut Items<CoreProc>,
) -> Result<u32, NoMemory>
    requires globals { AreGlobals placed.now.source.now.globals.now }
    requires layout { IsLayout (source_in placed.now.source.now) placed.now.layout.now }
    ensures out { OnOk result (out.new ≡ out.old ++ loops_in (program_of callees.now) (number_of callees.now)
        (source_in placed.now.source.now) number kind.now) }
    ensures next { IfOk result (λ next. next ≡ number + (spec.counts kind.now).loops) }
{
    match kind {
        StmtKind::If(_, yes, no) => {
            let next = push_loops(alloc, callees, placed, number, yes.as_slice(), out)?;
            let last = push_loops(alloc, callees, placed, next, no.as_slice(), out)?;
            Ok(last)
        }
        StmtKind::While(guard, invariants, body) => {
            let parts = WhileLoop {
                guard,
                invariants: invariants.as_slice(),
                body: body.as_slice(),
            };
            out.push(loop_proc(alloc, callees, placed, number, &parts)?)?;
            let next = add(1, number)?;
            let last = push_loops(alloc, callees, placed, next, body.as_slice(), out)?;
            Ok(last)
        }
        _ => Ok(number),
    }
}

/// The procedures of the loops of statements.
#[cycle(loops)]
pub(crate) fn push_loops(
    alloc: Global,
    callees: &Callees,
    placed: &Placed,
    number: u32,
    stmts: &[Stmt],
    out: &mut Items<CoreProc>,
) -> Result<u32, NoMemory>
    requires globals { AreGlobals placed.now.source.now.globals.now }
    requires layout { IsLayout (source_in placed.now.source.now) placed.now.layout.now }
    ensures out { OnOk result (out.new ≡ out.old ++ each_loop_in (program_of callees.now) (number_of callees.now)
        (source_in placed.now.source.now) number (kinds_of stmts.now)) }
    ensures next { IfOk result (λ next. next ≡ number + (counts_each (kinds_of stmts.now)).loops) }
{
    let mut next = number;
    for stmt in stmts {
        next = push_loops_of(alloc, callees, placed, next, &stmt.kind, out)?;
    }
    Ok(next)
}
