//! Calls, whose `requires` are checked on their arguments.
ghost use Rattle.std.specs.Prelude.{◌≡◌, ◌++◌, length, map, IfOk, OnOk};
ghost use Rattle.std.specs.Option.{option_copied};
ghost use Rattle.sd_meaning.specs.Routine.{requires_of, procedure_in};
ghost use Rattle.sd_core.specs.Run.{slots_from};
ghost use Rattle.sd_extract.specs.Extract as spec;
ghost use Rattle.sd_extract.specs.Scopes.{names_in, clause_stmt, call_with};
ghost use Rattle.sd_extract.specs.Counted.{counts_in};
ghost use Rattle.sd_extract.specs.Numbered.{program_of, number_of};

use crate::callees::Callees;
use crate::clause::push_requires;
use crate::counts::{Counts, count_call, length_of, plus};
use crate::expression::expressions;
use crate::frame::{push_reads, push_slots, put};
use crate::scope::Scope;
use crate::table::{NameTable, push_names};
use sd_ast::{Expr, Proc};
use sd_base::{Name, NoMemory};
use sd_core::{CoreStmt, Spot};
use sqlite_items::Items;
use std::alloc::Global;

/// The `requires` of a procedure, on parameters that these spots hold. All are assumed, or those that are free.
pub(crate) fn push_requires_on(
    alloc: Global,
    scope: &Scope,
    callee: &Proc,
    spots: &[Spot],
    assumed: bool,
    out: &mut Items<CoreStmt>,
) -> Result<(), NoMemory>
    ensures { OnOk result
        (out.new ≡ out.old ++ map (clause_stmt (spec.on_args (names_in scope.now) callee.now spots.now)
        assumed) (requires_of callee.now.specs)) }
{
    let mut names = Items::new(alloc);
    push_names(alloc, &mut names, callee.head.ins.as_slice())?;
    let table = NameTable::new(alloc, names)?;
    let inner = Scope {
        local_names: &table,
        locals: spots,
        global_names: scope.global_names,
        globals: scope.globals,
        entry: scope.globals,
    };
    push_requires(alloc, &inner, assumed, callee.specs.as_slice(), out)
}

/// The spots that receive the results of a call.
fn receivers(alloc: Global, scope: &Scope, names: &[Name]) -> Result<Items<Spot>, NoMemory>
    ensures { IfOk result (λ spots. spots ≡ map (spec.spot_of (names_in scope.now)) names.now) }
{
    let mut spots = Items::new(alloc);
    for name in names {
        spots.push(scope.target(name))?;
    }
    Ok(spots)
}

/// A call of a text.
#[derive(Clone, Copy, Drop)]
pub(crate) struct CallParts<'a> {
    pub(crate) names: &'a [Name],
    pub(crate) callee: &'a Name,
    pub(crate) args: &'a [Expr],
}

/// A procedure that is called, with its number and the first slot of the arguments.
#[derive(Clone, Copy, Drop)]
struct Called<'a> {
    procedure: &'a Proc,
    number: u32,
    first: u32,
}

/// A call of a procedure, whose arguments go to slots from the first one on.
fn push_call(
    alloc: Global,
    scope: &Scope,
    called: &Called,
    parts: &CallParts,
    out: &mut Items<CoreStmt>,
) -> Result<(), NoMemory>
    ensures { OnOk result
        (out.new ≡ out.old ++ call_with (names_in scope.now) called.now.number
        (slots_from called.now.first parts.now.args.now) parts.now.names.now parts.now.args.now
        called.now.procedure.now) }
{
    let callee = called.procedure;
    let first = called.first;
    let args = parts.args;
    let mut spots = Items::new(alloc);
    push_slots(first, args.len(), &mut spots)?;
    let copied = Items::from_slice(alloc, spots.as_slice())?;
    put(copied, expressions(alloc, scope, args)?, out)?;
    push_requires_on(alloc, scope, callee, spots.as_slice(), false, out)?;
    let outs = receivers(alloc, scope, parts.names)?;
    let mut ins = Items::new(alloc);
    push_reads(spots.as_slice(), &mut ins)?;
    out.push(CoreStmt::Call(outs, called.number, ins))?;
    Ok(())
}

/// A call, whose arguments go to the next hidden locals. What comes after the call counts from the result on.
pub(crate) fn call(
    alloc: Global,
    callees: &Callees,
    scope: &Scope,
    at: Counts,
    parts: &CallParts,
    out: &mut Items<CoreStmt>,
) -> Result<Counts, NoMemory>
    ensures out { OnOk result (out.new ≡ out.old ++ spec.call_of (names_in scope.now) (number_of callees.now)
        (slots_from at.args parts.now.args.now) parts.now.names.now parts.now.callee.now parts.now.args.now
        (procedure_in (program_of callees.now).decls parts.now.callee.now)) }
    ensures next { IfOk result (λ next. counts_in next ≡ spec.plus (counts_in at)
        (record { calls = 1; args = length parts.now.args.now; lefts = 0; loops = 0 })) }
{
    if let Some(procedure) = callees.named(parts.callee) {
        let called = Called {
            procedure,
            number: callees.number(parts.callee),
            first: at.args,
        };
        push_call(alloc, scope, &called, parts, out)?;
    }
    plus(at, count_call(length_of(parts.args)?))
}
