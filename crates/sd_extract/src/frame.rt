//! What the statements of a body are turned by.
ghost use Rattle.std.specs.Prelude.{◌≡◌, ◌+◌, ◌++◌, map, IfOk, OnOk};
ghost use Rattle.sd_core.specs.declared.tree.CoreExpr.{At as AtSpot};
ghost use Rattle.sd_extract.specs.Extract as spec;
ghost use Rattle.sd_extract.specs.Scopes.{leave_in, frame_in, slots_upto, spots_of, reached};

use crate::clause::push_ensures;
use crate::counts::add;
use crate::scope::Scope;
use sd_ast::Spec;
use sd_base::NoMemory;
use sd_core::{CoreExpr, CoreStmt, Spot};
use sqlite_items::Items;
use std::alloc::Global;

/// What `return` becomes.
#[derive(Clone, Copy, Drop)]
pub(crate) enum Leave<'a> {
    /// In a procedure, the `ensures` among the clauses are checked.
    Procedure(Scope<'a>, &'a [Spec]),
    /// In a loop, the spot says that the loop left its procedure.
    Loop(Spot),
}

/// The names of a body, with the spots of its ins, of its outs and locals, and of the copies of globals.
#[derive(Clone, Copy, Drop)]
pub(crate) struct Frame<'a> {
    pub(crate) scope: Scope<'a>,
    pub(crate) ins: &'a [Spot],
    pub(crate) state: &'a [Spot],
    pub(crate) copies: &'a [Spot],
    pub(crate) leave: Leave<'a>,
}

/// A group of assignments.
pub(crate) fn put(
    spots: Items<Spot>,
    es: Items<CoreExpr>,
    out: &mut Items<CoreStmt>,
) -> Result<(), NoMemory>
    ensures { OnOk result (out.new ≡ out.old ++ spec.put spots es) }
{
    if spots.is_empty() {
        return Ok(());
    }
    out.push(CoreStmt::Assign(spots, es))?;
    Ok(())
}

/// Slots from one on. The first one after them comes back.
pub(crate) fn push_slots(first: u32, count: usize, spots: &mut Items<Spot>) -> Result<u32, NoMemory>
    ensures spots { OnOk result (spots.new ≡ spots.old ++ slots_upto first count) }
    ensures next { IfOk result (λ next. next ≡ first + count) }
{
    let mut next = first;
    let mut left = count;
    'slots: while left > 0 {
        spots.push(Spot::Slot(next))?;
        next = add(next, 1)?;
        left -= 1;
    }
    Ok(next)
}

/// What stands at spots.
pub(crate) fn push_reads(spots: &[Spot], out: &mut Items<CoreExpr>) -> Result<(), NoMemory>
    ensures { OnOk result (out.new ≡ out.old ++ map AtSpot spots.now) }
{
    for spot in spots {
        out.push(CoreExpr::At(*spot))?;
    }
    Ok(())
}

/// Statements that end the procedure.
pub(crate) fn push_leave(
    alloc: Global,
    leave: &Leave,
    out: &mut Items<CoreStmt>,
) -> Result<(), NoMemory>
    ensures { OnOk result (out.new ≡ out.old ++ leave_in leave.now) }
{
    match leave {
        Leave::Procedure(scope, clauses) => {
            push_ensures(alloc, scope, clauses, out)?;
            out.push(CoreStmt::Return)?;
        }
        Leave::Loop(left) => {
            let mut spots = Items::new(alloc);
            spots.push(*left)?;
            let mut new = Items::new(alloc);
            new.push(CoreExpr::Truth(true))?;
            out.push(CoreStmt::Assign(spots, new))?;
            out.push(CoreStmt::Return)?;
        }
    }
    Ok(())
}

/// A call of the procedure of a loop.
pub(crate) fn loop_call(
    alloc: Global,
    frame: &Frame,
    number: u32,
    left: Option<Spot>,
) -> Result<CoreStmt, NoMemory>
    ensures { IfOk result (λ s. s ≡ spec.loop_call (frame_in frame.now) number (spots_of left)) }
{
    let mut outs = Items::from_slice(alloc, frame.state)?;
    if let Some(spot) = left {
        outs.push(spot)?;
    }
    let mut ins = Items::new(alloc);
    push_reads(frame.ins, &mut ins)?;
    push_reads(frame.state, &mut ins)?;
    push_reads(frame.copies, &mut ins)?;
    Ok(CoreStmt::Call(outs, number, ins))
}

/// What follows a loop that may have returned.
pub(crate) fn push_leave_if(
    alloc: Global,
    leave: &Leave,
    left: Option<Spot>,
    out: &mut Items<CoreStmt>,
) -> Result<(), NoMemory>
    ensures { OnOk result (out.new ≡ out.old ++ spec.leave_if (spots_of left) (leave_in leave.now)) }
{
    let Some(spot) = left else {
        return Ok(());
    };
    let mut yes = Items::new(alloc);
    push_leave(alloc, leave, &mut yes)?;
    out.push(CoreStmt::If(CoreExpr::At(spot), yes, Items::new(alloc)))?;
    Ok(())
}
