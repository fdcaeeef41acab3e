//! The core procedures of a procedure with a body.
ghost use Rattle.std.specs.Prelude.{◌≡◌, ◌+◌, ◌++◌, suc, map, IfOk, OnOk};
ghost use Rattle.sd_meaning.specs.Run.{kinds_of};
ghost use Rattle.sd_core.specs.declared.tree.CoreExpr.{At as AtSpot};
ghost use Rattle.sd_core.specs.declared.tree.Spot.TheVariants.{Global as AtGlobal};
ghost use Rattle.sd_extract.specs.Extract as spec;
ghost use Rattle.sd_extract.specs.Extract.{copies_of, counts_each, kinds, procs_of};
ghost use Rattle.sd_extract.specs.Scopes.{frame_in};
ghost use Rattle.sd_extract.specs.Counted.{counts_in};
ghost use Rattle.sd_extract.specs.Numbered.{program_of, number_of};
ghost use Rattle.sd_extract.specs.Sources.{source_in, body_with, AreGlobals, IsLayout};

use crate::call::push_requires_on;
use crate::callees::Callees;
use crate::counts::{Counts, add, count_stmts, none};
use crate::frame::{Frame, push_leave, put};
use crate::frames::body_frame;
use crate::hidden::push_hidden;
use crate::loops::{Placed, push_copies, push_loops, start};
use crate::source::{Layout, Source, layout_of};
use crate::statement::push_stmts;
use sd_base::{CloneOf, NoMemory, Var, clone_items};
use sd_core::{CoreExpr, CoreProc, CoreStmt, Spot};
use sqlite_items::Items;
use std::alloc::Global;

/// What stands in globals.
fn global_reads(alloc: Global, places: &[u32]) -> Result<Items<CoreExpr>, NoMemory>
    ensures { IfOk result (λ es. es ≡ map (λ i. AtSpot (AtGlobal i)) places.now) }
{
    let mut es = Items::new(alloc);
    for place in places {
        es.push(CoreExpr::At(Spot::Global(*place)))?;
    }
    Ok(es)
}

/// The statements of a procedure: the copies of globals, its `requires`, its body, and its end.
fn body_stmts(
    alloc: Global,
    callees: &Callees,
    frame: &Frame,
    source: &Source,
    at: Counts,
) -> Result<Items<CoreStmt>, NoMemory>
    ensures { IfOk result (λ ss. ss ≡ body_with (program_of callees.now) (number_of callees.now) (frame_in frame.now)
        source.now.modifies source.now.declared.now (counts_in at) (kinds_of source.now.body.now.stmts)) }
{
    let mut out = Items::new(alloc);
    let copies = Items::from_slice(alloc, frame.copies)?;
    put(
        copies,
        global_reads(alloc, source.modifies.as_slice())?,
        &mut out,
    )?;
    push_requires_on(
        alloc,
        &frame.scope,
        source.declared,
        frame.ins,
        true,
        &mut out,
    )?;
    push_stmts(
        alloc,
        callees,
        frame,
        at,
        source.body.stmts.as_slice(),
        &mut out,
    )?;
    push_leave(alloc, &frame.leave, &mut out)?;
    Ok(out)
}

/// The locals of a procedure: its own, the copies of globals, and the hidden ones.
fn body_locals(alloc: Global, callees: &Callees, source: &Source) -> Result<Items<Var>, NoMemory>
    ensures { IfOk result (λ locals. locals ≡ source.now.body.now.locals
        ++ (copies_of (source_in source.now) ++ spec.hidden (program_of callees.now) spec.none
        (kinds (source_in source.now)))) }
{
    let mut locals = clone_items(alloc, &source.body.locals)?;
    push_copies(alloc, source.copied.as_slice(), &mut locals)?;
    push_hidden(
        alloc,
        callees,
        none(),
        source.body.stmts.as_slice(),
        &mut locals,
    )?;
    Ok(locals)
}

/// The procedure itself.
fn body_proc(
    alloc: Global,
    callees: &Callees,
    source: &Source,
    layout: &Layout,
) -> Result<CoreProc, NoMemory>
    requires globals { AreGlobals source.now.globals.now }
    requires layout { IsLayout (source_in source.now) layout.now }
    ensures { IfOk result
        (λ p. p ≡ spec.body_proc (program_of callees.now) (number_of callees.now) (source_in source.now)) }
{
    let inside = count_stmts(source.body.stmts.as_slice())?;
    let frame = body_frame(source, layout);
    let at = start(layout.slots.hidden, inside.counts, add(1, source.number)?)?;
    let body = body_stmts(alloc, callees, &frame, source, at)?;
    Ok(CoreProc {
        name: source.head.name.clone_of(alloc)?,
        parent: None,
        ins: clone_items(alloc, &source.head.ins)?,
        outs: clone_items(alloc, &source.head.outs)?,
        locals: body_locals(alloc, callees, source)?,
        modifies: Items::from_slice(alloc, source.modifies.as_slice())?,
        body,
    })
}

/// The procedure and those of its loops. The next free number comes back.
pub(crate) fn push_procs(
    alloc: Global,
    callees: &Callees,
    source: &Source,
    out: &mut Items<CoreProc>,
) -> Result<u32, NoMemory>
    requires { AreGlobals source.now.globals.now }
    ensures out { OnOk result (out.new ≡ out.old ++ procs_of (program_of callees.now) (number_of callees.now)
        (source_in source.now)) }
    ensures next { IfOk result
        (λ next. next ≡ source.now.number + suc (counts_each (kinds (source_in source.now))).loops) }
{
    let layout = layout_of(alloc, source)?;
    out.push(body_proc(alloc, callees, source, &layout)?)?;
    let first = add(1, source.number)?;
    let placed = Placed {
        source,
        layout: &layout,
    };
    let next = push_loops(
        alloc,
        callees,
        &placed,
        first,
        source.body.stmts.as_slice(),
        out,
    )?;
    Ok(next)
}
