//! Hidden locals: for the arguments of calls, and for loops that a `return` may leave.
ghost use Rattle.std.specs.Prelude.{◌≡◌, ◌++◌, IfOk, OnOk, ◌+◌};
ghost use Rattle.sd_meaning.specs.Run.{kinds_of};
ghost use Rattle.sd_meaning.specs.Routine.{procedure_in};
ghost use Rattle.sd_extract.specs.Extract as spec;
ghost use Rattle.sd_extract.specs.Extract.{arg_vars, ins_of, args_in, lefts_in, each_args_in, each_left_in, of_loop};
ghost use Rattle.sd_extract.specs.Extract.{counts_each};
ghost use Rattle.sd_extract.specs.Counted.{counts_in, has_return_among};
ghost use Rattle.sd_extract.specs.Numbered.{program_of};
ghost use Rattle.sd_extract.specs.Scopes.{left_var};

use crate::callees::Callees;
use crate::counts::{Counts, add, count_call, count_loop, count_stmts, plus};
use crate::naming::{argument_name, left_name};
use sd_ast::{Stmt, StmtKind};
use sd_base::{CloneOf, Name, NoMemory, Sort, Var};
use sqlite_items::Items;
use std::alloc::Global;

/// A local for each parameter of the callee of a call.
fn push_arg_vars(
    alloc: Global,
    call: u32,
    ins: &[Var],
    out: &mut Items<Var>,
) -> Result<(), NoMemory>
    ensures { OnOk result (out.new ≡ out.old ++ arg_vars call 1 ins.now) }
{
    let mut place = 1;
    for var in ins {
        out.push(Var {
            name: argument_name(alloc, call, place)?,
            sort: var.sort.clone_of(alloc)?,
        })?;
        place = add(place, 1)?;
    }
    Ok(())
}

fn push_call_args(
    alloc: Global,
    callees: &Callees,
    at: Counts,
    callee: &Name,
    count: usize,
    args: &mut Items<Var>,
) -> Result<Counts, NoMemory>
    ensures args { OnOk result (args.new ≡ args.old ++ arg_vars (1 + at.calls) 1
        (ins_of (procedure_in (program_of callees.now).decls callee.now))) }
    ensures next { IfOk result (λ next. counts_in next ≡ spec.plus (counts_in at)
        (record { calls = 1; args = count; lefts = 0; loops = 0 })) }
{
    let call = add(1, at.calls)?;
    if let Some(procedure) = callees.named(callee) {
        push_arg_vars(alloc, call, procedure.head.ins.as_slice(), args)?;
    }
    let Ok(count) = u32::try_from(count) else {
        return Err(NoMemory);
    };
    plus(at, count_call(count))
}

fn push_loop_left(
    alloc: Global,
    at: Counts,
    body: &[Stmt],
    lefts: &mut Items<Var>,
) -> Result<Counts, NoMemory>
    ensures lefts { OnOk result
        (lefts.new ≡ lefts.old ++ left_var (counts_in at) (has_return_among (kinds_of body.now))) }
    ensures next { IfOk result (λ next. counts_in next ≡ spec.plus (counts_in at)
        (of_loop (has_return_among (kinds_of body.now)) (counts_each (kinds_of body.now)))) }
{
    let inside = count_stmts(body)?;
    if inside.returns {
        lefts.push(Var {
            name: left_name(alloc, add(1, at.loops)?)?,
            sort: Sort::Bool,
        })?;
    }
    plus(at, count_loop(inside)?)
}

/// The hidden locals of a statement. What comes after it counts from the result on.
#[cycle(hidden)]
fn push_hidden_of(
    alloc: Global,
    callees: &Callees,
    at: Counts,
    kind: &StmtKind,
    args: &mut Items<Var>,
    lefts: &mut Items<Var>,
) -> Result<Counts, NoMemory>
    ensures args { OnOk result (args.new ≡ args.old ++ args_in (program_of callees.now) (counts_in at) kind.now) }
    ensures lefts { OnOk result (lefts.new ≡ lefts.old ++ lefts_in (counts_in at) kind.now) }
    ensures next { IfOk result (λ next. counts_in next ≡ spec.plus (counts_in at) (spec.counts kind.now)) }
{
    match kind {
        StmtKind::Call(_, callee, es) => {
            push_call_args(alloc, callees, at, callee, es.len(), args)
        }
        StmtKind::If(_, yes, no) => {
            let next = push_all_hidden(alloc, callees, at, yes.as_slice(), args, lefts)?;
            let next = push_all_hidden(alloc, callees, next, no.as_slice(), args, lefts)?;
            Ok(next)
        }
        StmtKind::While(_, _, body) => {
            let next = push_loop_left(alloc, at, body.as_slice(), lefts)?;
            Ok(next)
        }
        _ => Ok(at),
    }
}

/// The hidden locals of statements.
#[cycle(hidden)]
fn push_all_hidden(
    alloc: Global,
    callees: &Callees,
    at: Counts,
    stmts: &[Stmt],
    args: &mut Items<Var>,
    lefts: &mut Items<Var>,
) -> Result<Counts, NoMemory>
    ensures args { OnOk result
        (args.new ≡ args.old ++ each_args_in (program_of callees.now) (counts_in at) (kinds_of stmts.now)) }
    ensures lefts { OnOk result (lefts.new ≡ lefts.old ++ each_left_in (counts_in at) (kinds_of stmts.now)) }
    ensures next { IfOk result (λ next. counts_in next ≡ spec.plus (counts_in at) (counts_each (kinds_of stmts.now))) }
{
    let mut next = at;
    for stmt in stmts {
        next = push_hidden_of(alloc, callees, next, &stmt.kind, args, lefts)?;
    }
    Ok(next)
}

/// The hidden locals of a body.
pub(crate) fn push_hidden(
    alloc: Global,
    callees: &Callees,
    at: Counts,
    stmts: &[Stmt],
    out: &mut Items<Var>,
) -> Result<(), NoMemory>
    ensures { OnOk result
        (out.new ≡ out.old ++ spec.hidden (program_of callees.now) (counts_in at) (kinds_of stmts.now)) }
{
    let mut lefts = Items::new(alloc);
    push_all_hidden(alloc, callees, at, stmts, out, &mut lefts)?;
    out.append(lefts)?;
    Ok(())
}
