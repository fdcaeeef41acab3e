//! Statements as core statements.
ghost use Rattle.std.specs.Prelude.{◌≡◌, ◌++◌, IfOk, OnOk};
ghost use Rattle.sd_meaning.specs.Run.{kinds_of};
ghost use Rattle.sd_extract.specs.Extract as spec;
ghost use Rattle.sd_extract.specs.Extract.{extracted, each_extracted, of_loop, counts_each};
ghost use Rattle.sd_extract.specs.Scopes.{frame_in, reached};
ghost use Rattle.sd_extract.specs.Counted.{counts_in, has_return_among};
ghost use Rattle.sd_extract.specs.Numbered.{program_of, number_of};

use crate::assignment::assignment;
use crate::call::{CallParts, call};
use crate::callees::Callees;
use crate::clause::push_check;
use crate::counts::{Counts, count_loop, count_stmts, plus};
use crate::expression::expression;
use crate::frame::{Frame, loop_call, push_leave, push_leave_if};
use sd_ast::{Stmt, StmtKind};
use sd_base::NoMemory;
use sd_core::{CoreStmt, Spot};
use sqlite_items::Items;
use std::alloc::Global;

/// A loop, as a call of its procedure. What comes after it counts from the result on.
fn push_loop(
    alloc: Global,
    frame: &Frame,
    at: Counts,
    body: &[Stmt],
    out: &mut Items<CoreStmt>,
) -> Result<Counts, NoMemory>
    ensures out { OnOk result (out.new ≡ out.old ++ reached (frame_in frame.now) (counts_in at)
        (has_return_among (kinds_of body.now))) }
    ensures next { IfOk result (λ next. counts_in next ≡ spec.plus (counts_in at)
        (of_loop (has_return_among (kinds_of body.now)) (counts_each (kinds_of body.now)))) }
{
    let inside = count_stmts(body)?;
    let left = if inside.returns {
        Some(Spot::Slot(at.lefts))
    } else {
        None
    };
    out.push(loop_call(alloc, frame, at.loops, left)?)?;
    push_leave_if(alloc, &frame.leave, left, out)?;
    plus(at, count_loop(inside)?)
}

/// A statement. What comes after it counts from the result on.
#[cycle(statement)]
pub(crate) fn push_stmt(
    alloc: Global,
    callees: &Callees,
    frame: &Frame,
    at: Counts,
    kind: &StmtKind,
    out: &mut Items<CoreStmt>,
) -> Result<Counts, NoMemory>
    ensures out { OnOk result (out.new ≡ out.old ++ extracted (program_of callees.now) (number_of callees.now)
        (frame_in frame.now) (counts_in at) kind.now) }
    ensures next { IfOk result (λ next. counts_in next ≡ spec.plus (counts_in at) (spec.counts kind.now)) }
{
    match kind {
        StmtKind::Assert(e) => {
            push_check(alloc, &frame.scope, false, e, out)?;
            Ok(at)
        }
        StmtKind::Assume(e) => {
            push_check(alloc, &frame.scope, true, e, out)?;
            Ok(at)
        }
        StmtKind::Assign(lefts, rights) => {
            out.push(assignment(alloc, &frame.scope, lefts.as_slice(), rights.as_slice())?)?;
            Ok(at)
        }
        StmtKind::Call(names, callee, args) => {
            let parts = CallParts {
                names: names.as_slice(),
                callee,
                args: args.as_slice(),
            };
            call(alloc, callees, &frame.scope, at, &parts, out)
        }
        StmtKind::If(e, yes, no) => {
            let holds = expression(alloc, &frame.scope, &e.kind)?;
            let mut then = Items::new(alloc);
            let next = push_stmts(alloc, callees, frame, at, yes.as_slice(), &mut then)?;
            let mut other = Items::new(alloc);
            let next = push_stmts(alloc, callees, frame, next, no.as_slice(), &mut other)?;
            out.push(CoreStmt::If(holds, then, other))?;
            Ok(next)
        }
        StmtKind::While(_, _, body) => push_loop(alloc, frame, at, body.as_slice(), out),
        StmtKind::Break => {
            out.push(CoreStmt::Return)?;
            Ok(at)
        }
        StmtKind::Return => {
            push_leave(alloc, &frame.leave, out)?;
            Ok(at)
        }
    }
}

/// Statements one after another.
#[cycle(statement)]
pub(crate) fn push_stmts(
    alloc: Global,
    callees: &Callees,
    frame: &Frame,
    at: Counts,
    stmts: &[Stmt],
    out: &mut Items<CoreStmt>,
) -> Result<Counts, NoMemory>
    ensures out { OnOk result (out.new ≡ out.old ++ each_extracted (program_of callees.now) (number_of callees.now)
        (frame_in frame.now) (counts_in at) (kinds_of stmts.now)) }
    ensures next { IfOk result (λ next. counts_in next ≡ spec.plus (counts_in at) (counts_each (kinds_of stmts.now))) }
{
    let mut next = at;
    for stmt in stmts {
        next = push_stmt(alloc, callees, frame, next, &stmt.kind, out)?;
    }
    Ok(next)
}
