//! The rules on declarations.
ghost use Rattle.std.specs.Prelude.{◌≡◌, ◌++◌, IfOk, OnOk};
ghost use Rattle.sd_types.specs.Answer.{Answers, each};
ghost use Rattle.sd_types.specs.Names.{HaveSame};
ghost use Rattle.sd_types.specs.Tables.{FindSame};
ghost use Rattle.sd_types.specs.Scopes.{context};
ghost use Rattle.sd_types.specs.Statements.{is_global};
ghost use Rattle.sd_types.specs.Declarations as spec;
ghost use Rattle.sd_types.specs.Declarations.{variables_as, parameters, body_variables, body_stmts_rule, axiom_rule, function_rule, known_sorts, known_vars, head_rule, names_global, spec_rule, body_rule, own_body_rule, procedure_rule, same_types, implementation_rule, decl_rule};

use crate::assigned::is_global_variable;
use crate::declare::modifies_of;
use crate::phrase::{check_sort, expect_truth};
use crate::refusal::{TypeError, unknown};
use crate::scope::{Callee, Frame, Nature, Scope, Site, Variable};
use crate::statement::check_stmts;
use crate::table::{NameList, Table, name_set};
use sd_ast::{Body, Decl, Expr, Head, Impl, Proc, Spec};
use sd_base::{CloneOf, Name, NoMemory, Sort, Var, is_same_sort};
use sqlite_items::Items;
use std::alloc::Global;

fn check_sorts(alloc: Global, types: &NameList, sorts: &Items<Sort>) -> Result<(), TypeError>
    ensures { Answers (known_sorts types.now sorts.now) result }
{
    for sort in sorts.as_slice() {
        check_sort(alloc, types, sort)?;
    }
    Ok(())
}

fn check_vars(alloc: Global, types: &NameList, vars: &Items<Var>) -> Result<(), TypeError>
    ensures { Answers (known_vars types.now vars.now) result }
{
    for var in vars.as_slice() {
        check_sort(alloc, types, &var.sort)?;
    }
    Ok(())
}

fn check_head(alloc: Global, types: &NameList, head: &Head) -> Result<(), TypeError>
    ensures { Answers (head_rule types.now head.now) result }
{
    check_vars(alloc, types, &head.ins)?;
    check_vars(alloc, types, &head.outs)
}

// ---- variables in scope

/// Adds variables to a table. A name that is there keeps what it stands for.
fn put_variables(
    alloc: Global,
    table: &mut Table<Variable>,
    vars: &Items<Var>,
    nature: Nature,
) -> Result<(), NoMemory>
    ensures { OnOk result (FindSame table.new (table.old ++ variables_as nature vars.now)) }
{
    for var in vars.as_slice() {
        let sort = var.sort.clone_of(alloc)?;
        table.put(alloc, &var.name, Variable { sort, nature })?;
    }
    Ok(())
}

fn parameter_table(alloc: Global, head: &Head) -> Result<Table<Variable>, NoMemory>
    ensures { IfOk result (λ table. FindSame table (parameters head.now)) }
{
    let mut table = Table::new(alloc);
    put_variables(alloc, &mut table, &head.ins, Nature::Input)?;
    put_variables(alloc, &mut table, &head.outs, Nature::Output)?;
    Ok(table)
}

fn body_table(alloc: Global, head: &Head, body: &Body) -> Result<Table<Variable>, NoMemory>
    ensures { IfOk result (λ table. FindSame table (body_variables head.now body.now)) }
{
    let mut table = parameter_table(alloc, head)?;
    put_variables(alloc, &mut table, &body.locals, Nature::Local)?;
    Ok(table)
}

// ---- clauses

/// Sees that a name in a `modifies` is that of a global.
fn check_global(alloc: Global, globals: &Table<Variable>, name: &Name) -> Result<(), TypeError>
    ensures { Answers (names_global globals.now name.now) result }
{
    if is_global_variable(globals.get(name)) {
        Ok(())
    } else {
        unknown(alloc, name)
    }
}

fn check_globals(
    alloc: Global,
    globals: &Table<Variable>,
    names: &Items<Name>,
) -> Result<(), TypeError>
    ensures { Answers (each (names_global globals.now) names.now) result }
{
    for name in names.as_slice() {
        check_global(alloc, globals, name)?;
    }
    Ok(())
}

fn check_spec(
    alloc: Global,
    scope: &Scope,
    locals: &Table<Variable>,
    spec: &Spec,
) -> Result<(), TypeError>
    ensures { Answers (spec_rule scope.now locals.now spec.now) result }
{
    match spec {
        Spec::Modifies(names) => check_globals(alloc, &scope.globals, names),
        Spec::Requires(_, expr) => expect_truth(alloc, scope, locals, Site::Requires, expr),
        Spec::Ensures(_, expr) => expect_truth(alloc, scope, locals, Site::Ensures, expr),
    }
}

fn check_all_specs(
    alloc: Global,
    scope: &Scope,
    locals: &Table<Variable>,
    specs: &Items<Spec>,
) -> Result<(), TypeError>
    ensures { Answers (each (spec_rule scope.now locals.now) specs.now) result }
{
    for spec in specs.as_slice() {
        check_spec(alloc, scope, locals, spec)?;
    }
    Ok(())
}

/// The clauses below a head.
fn check_specs(
    alloc: Global,
    scope: &Scope,
    head: &Head,
    specs: &Items<Spec>,
) -> Result<(), TypeError>
    ensures { Answers (each (spec_rule scope.now (parameters head.now)) specs.now) result }
{
    let locals = parameter_table(alloc, head)?;
    check_all_specs(alloc, scope, &locals, specs)
}

// ---- bodies

/// The statements of a body below a head.
fn check_body_stmts(
    alloc: Global,
    scope: &Scope,
    head: &Head,
    modifies: &Items<Name>,
    body: &Body,
) -> Result<(), TypeError>
    ensures { Answers (body_stmts_rule scope.now head.now modifies.now body.now) result }
{
    let locals = body_table(alloc, head, body)?;
    let modifies = name_set(alloc, modifies)?;
    let frame = Frame {
        scope,
        locals: &locals,
        modifies: &modifies,
    };
    check_stmts(alloc, &frame, false, &body.stmts)
}

fn check_body(
    alloc: Global,
    scope: &Scope,
    head: &Head,
    modifies: &Items<Name>,
    body: &Body,
) -> Result<(), TypeError>
    ensures { Answers (body_rule scope.now head.now modifies.now body.now) result }
{
    check_vars(alloc, &scope.types, &body.locals)?;
    check_body_stmts(alloc, scope, head, modifies, body)
}

fn check_own_body(alloc: Global, scope: &Scope, procedure: &Proc) -> Result<(), TypeError>
    ensures { Answers
        (own_body_rule scope.now procedure.now.head
        (spec.modifies_of procedure.now.specs) procedure.now.body) result }
{
    let Some(body) = &procedure.body else {
        return Ok(());
    };
    let modifies = modifies_of(alloc, &procedure.specs)?;
    check_body(alloc, scope, &procedure.head, &modifies, body)
}

// ---- declarations

fn check_procedure(alloc: Global, scope: &Scope, procedure: &Proc) -> Result<(), TypeError>
    ensures { Answers (procedure_rule scope.now procedure.now) result }
{
    check_head(alloc, &scope.types, &procedure.head)?;
    check_specs(alloc, scope, &procedure.head, &procedure.specs)?;
    check_own_body(alloc, scope, procedure)
}

/// Whether the variables have these types.
fn have_sorts(sorts: &Items<Sort>, vars: &Items<Var>) -> bool
    ensures { result ≡ spec.have_sorts sorts.now vars.now }
{
    if sorts.len() != vars.len() {
        return false;
    }
    for (i, var) in vars.as_slice().iter().enumerate() {
        if !is_same_sort(&sorts.as_slice()[i], &var.sort) {
            return false;
        }
    }
    true
}

fn check_types(head: &Head, callee: &Callee) -> Result<(), TypeError>
    ensures { Answers (same_types head.now callee.now) result }
{
    if have_sorts(&callee.ins, &head.ins) && have_sorts(&callee.outs, &head.outs) {
        Ok(())
    } else {
        Err(TypeError::Kind(head.at))
    }
}

fn check_implementation(
    alloc: Global,
    scope: &Scope,
    implementation: &Impl,
) -> Result<(), TypeError>
    ensures { Answers (implementation_rule scope.now implementation.now) result }
{
    let head = &implementation.head;
    check_head(alloc, &scope.types, head)?;
    let Some(callee) = scope.procedures.get(&head.name) else {
        return unknown(alloc, &head.name);
    };
    check_types(head, callee)?;
    check_body(alloc, scope, head, &callee.modifies, &implementation.body)
}

fn check_axiom(alloc: Global, scope: &Scope, expr: &Expr) -> Result<(), TypeError>
    ensures { Answers (axiom_rule scope.now expr.now) result }
{
    expect_truth(alloc, scope, &Table::new(alloc), Site::Axiom, expr)
}

fn check_function(
    alloc: Global,
    types: &NameList,
    args: &Items<Sort>,
    result_sort: &Sort,
) -> Result<(), TypeError>
    ensures { Answers (function_rule types.now args.now result_sort.now) result }
{
    check_sorts(alloc, types, args)?;
    check_sort(alloc, types, result_sort)
}

fn check_decl(alloc: Global, scope: &Scope, decl: &Decl) -> Result<(), TypeError>
    ensures { Answers (decl_rule scope.now decl.now) result }
{
    match decl {
        Decl::Types(_) => Ok(()),
        Decl::Const { sort, .. } => check_sort(alloc, &scope.types, sort),
        Decl::Function { args, result, .. } => check_function(alloc, &scope.types, args, result),
        Decl::Axiom(expr) => check_axiom(alloc, scope, expr),
        Decl::Globals(vars) => check_vars(alloc, &scope.types, vars),
        Decl::Procedure(procedure) => check_procedure(alloc, scope, procedure),
        Decl::Implementation(implementation) => {
            check_implementation(alloc, scope, implementation)
        }
    }
}

/// The rules on the declarations, in text order.
pub(crate) fn check_decls(
    alloc: Global,
    scope: &Scope,
    decls: &Items<Decl>,
) -> Result<(), TypeError>
    ensures { Answers (each (decl_rule scope.now) decls.now) result }
{
    for decl in decls.as_slice() {
        check_decl(alloc, scope, decl)?;
    }
    Ok(())
}
