//! What a text declares, where no name is declared twice in its space.
ghost use Rattle.std.specs.Prelude.{◌≡◌, IfOk};
ghost use Rattle.sd_ast.specs.Tree.{names_of};
ghost use Rattle.sd_types.specs.declared.scope.Nature.TheVariants as nature;
ghost use Rattle.sd_types.specs.Names.{is_among};
ghost use Rattle.sd_types.specs.Answer.{Answers, Leaves};
ghost use Rattle.sd_types.specs.Tables.{with_entry, with_entries};
ghost use Rattle.sd_types.specs.Declarations as spec;
ghost use Rattle.sd_types.specs.Declarations.{sorts_of_vars, variables_as, constants_of, own_names, with_body, with_implementation, enter_implementation_of, enter_of, enter_all_of, nothing};

use crate::refusal::TypeError;
use crate::scope::{Callee, Nature, Scope, Signature, Variable};
use crate::table::{NameList, Table, name_set};
use sd_ast::{Body, Decl, Head, Impl, Proc, Spec};
use sd_base::{CloneOf, Name, NoMemory, Sort, Var, clone_items};
use sqlite_items::Items;
use std::alloc::Global;

/// The types of variables.
fn sorts_of(alloc: Global, vars: &Items<Var>) -> Result<Items<Sort>, NoMemory>
    ensures { IfOk result (λ sorts. sorts ≡ sorts_of_vars vars.now) }
{
    let mut sorts = Items::new(alloc);
    for var in vars.as_slice() {
        sorts.push(var.sort.clone_of(alloc)?)?;
    }
    Ok(sorts)
}

/// The names in the `modifies` clauses, in order.
pub(crate) fn modifies_of(alloc: Global, specs: &Items<Spec>) -> Result<Items<Name>, NoMemory>
    ensures { IfOk result (λ names. names ≡ spec.modifies_of specs.now) }
{
    let mut names = Items::new(alloc);
    for spec in specs.as_slice() {
        if let Spec::Modifies(more) = spec {
            names.append(clone_items(alloc, more)?)?;
        }
    }
    Ok(names)
}

fn callee_of(alloc: Global, procedure: &Proc) -> Result<Callee, NoMemory>
    ensures { IfOk result (λ callee. callee ≡ spec.callee_of procedure.now) }
{
    let ins = sorts_of(alloc, &procedure.head.ins)?;
    let outs = sorts_of(alloc, &procedure.head.outs)?;
    let modifies = modifies_of(alloc, &procedure.specs)?;
    Ok(Callee {
        ins,
        outs,
        modifies,
    })
}

fn declare_globals(
    alloc: Global,
    globals: &mut Table<Variable>,
    vars: &Items<Var>,
) -> Result<(), TypeError>
    ensures { Leaves (with_entries globals.old (variables_as nature.Global vars.now)) globals.new result }
{
    for var in vars.as_slice() {
        let sort = var.sort.clone_of(alloc)?;
        let variable = Variable {
            sort,
            nature: Nature::Global,
        };
        globals.add(alloc, &var.name, variable)?;
    }
    Ok(())
}

fn declare_constants(
    alloc: Global,
    globals: &mut Table<Variable>,
    names: &Items<Name>,
    sort: &Sort,
) -> Result<(), TypeError>
    ensures { Leaves (with_entries globals.old (constants_of sort.now names.now)) globals.new result }
{
    for name in names.as_slice() {
        let variable = Variable {
            sort: sort.clone_of(alloc)?,
            nature: Nature::Constant,
        };
        globals.add(alloc, name, variable)?;
    }
    Ok(())
}

/// Sees that the parameters and locals of a procedure are distinct, and gives their names.
fn check_own_names(alloc: Global, head: &Head, locals: &Items<Var>) -> Result<NameList, TypeError>
    ensures { Answers (own_names head.now locals.now) result }
{
    let mut names = NameList::new(alloc);
    names.add_variables(alloc, &head.ins)?;
    names.add_variables(alloc, &head.outs)?;
    names.add_variables(alloc, locals)?;
    Ok(names)
}

/// The same with the locals of a body, where there is one.
fn check_own_locals(alloc: Global, head: &Head, body: &Option<Body>) -> Result<NameList, TypeError>
    ensures { Answers (own_names head.now (spec.locals_of body.now)) result }
{
    match body {
        Some(body) => check_own_names(alloc, head, &body.locals),
        None => check_own_names(alloc, head, &Items::new(alloc)),
    }
}

fn declare_body(
    alloc: Global,
    bodies: &mut NameList,
    name: &Name,
    body: &Option<Body>,
) -> Result<(), TypeError>
    ensures { Leaves (with_body bodies.old name.now body.now) bodies.new result }
{
    match body {
        Some(_) => bodies.add(alloc, name),
        None => Ok(()),
    }
}

fn declare_procedure(alloc: Global, scope: &mut Scope, procedure: &Proc) -> Result<(), TypeError>
    ensures { Leaves (spec.enter_procedure scope.old procedure.now) scope.new result }
{
    let head = &procedure.head;
    let callee = callee_of(alloc, procedure)?;
    scope.procedures.add(alloc, &head.name, callee)?;
    declare_body(alloc, &mut scope.bodies, &head.name, &procedure.body)?;
    check_own_locals(alloc, head, &procedure.body)?;
    Ok(())
}

/// Adds the body of an implementation, where its procedure is declared.
fn declare_other_body(
    alloc: Global,
    bodies: &mut NameList,
    procedures: &NameList,
    name: &Name,
) -> Result<(), TypeError>
    ensures { Leaves (with_implementation (is_among procedures.now name.now) bodies.old name.now) bodies.new result }
{
    if procedures.has(name) {
        bodies.add(alloc, name)
    } else {
        Ok(())
    }
}

fn declare_implementation(
    alloc: Global,
    scope: &mut Scope,
    procedures: &NameList,
    implementation: &Impl,
) -> Result<(), TypeError>
    ensures { Leaves (enter_implementation_of (is_among procedures.now) scope.old implementation.now) scope.new result }
{
    let head = &implementation.head;
    declare_other_body(alloc, &mut scope.bodies, procedures, &head.name)?;
    check_own_names(alloc, head, &implementation.body.locals)?;
    Ok(())
}

/// Declares a function.
fn declare_function(
    alloc: Global,
    functions: &mut Table<Signature>,
    name: &Name,
    args: &Items<Sort>,
    result_sort: &Sort,
) -> Result<(), TypeError>
    ensures { Leaves
        (with_entry functions.old name.now
        (record { args = args.now; result = result_sort.now })) functions.new result }
{
    let signature = Signature {
        args: clone_items(alloc, args)?,
        result: result_sort.clone_of(alloc)?,
    };
    functions.add(alloc, name, signature)
}

/// Declares what one declaration says, in a text with these procedures.
fn declare(
    alloc: Global,
    scope: &mut Scope,
    procedures: &NameList,
    decl: &Decl,
) -> Result<(), TypeError>
    ensures { Leaves (enter_of (is_among procedures.now) scope.old decl.now) scope.new result }
{
    match decl {
        Decl::Types(names) => scope.types.add_all(alloc, names),
        Decl::Const { names, sort, .. } => {
            declare_constants(alloc, &mut scope.globals, names, sort)
        }
        Decl::Function { name, args, result } => {
            declare_function(alloc, &mut scope.functions, name, args, result)
        }
        Decl::Axiom(_) => Ok(()),
        Decl::Globals(vars) => declare_globals(alloc, &mut scope.globals, vars),
        Decl::Procedure(procedure) => declare_procedure(alloc, scope, procedure),
        Decl::Implementation(implementation) => {
            declare_implementation(alloc, scope, procedures, implementation)
        }
    }
}

fn declare_all(
    alloc: Global,
    scope: &mut Scope,
    procedures: &NameList,
    decls: &Items<Decl>,
) -> Result<(), TypeError>
    ensures { Leaves (enter_all_of (is_among procedures.now) scope.old decls.now) scope.new result }
{
    for decl in decls.as_slice() {
        declare(alloc, scope, procedures, decl)?;
    }
    Ok(())
}

/// The names of the procedures that are declared.
fn procedure_names(alloc: Global, decls: &Items<Decl>) -> Result<Items<Name>, NoMemory>
    ensures { IfOk result (λ names. names ≡ spec.procedure_names decls.now) }
{
    let mut names = Items::new(alloc);
    for decl in decls.as_slice() {
        if let Decl::Procedure(procedure) = decl {
            names.push(procedure.head.name.clone_of(alloc)?)?;
        }
    }
    Ok(names)
}

/// What a text with these procedures declares.
fn scope_among(
    alloc: Global,
    procedures: &NameList,
    decls: &Items<Decl>,
) -> Result<Scope, TypeError>
    ensures { Answers (enter_all_of (is_among procedures.now) nothing decls.now) result }
{
    let mut scope = Scope {
        types: NameList::new(alloc),
        globals: Table::new(alloc),
        functions: Table::new(alloc),
        procedures: Table::new(alloc),
        bodies: NameList::new(alloc),
    };
    declare_all(alloc, &mut scope, procedures, decls)?;
    Ok(scope)
}

/// What the text declares, or the first name that is declared twice in its space.
pub(crate) fn scope_of(alloc: Global, decls: &Items<Decl>) -> Result<Scope, TypeError>
    ensures { Answers (spec.scope_of decls.now) result }
{
    let names = procedure_names(alloc, decls)?;
    let procedures = name_set(alloc, &names)?;
    scope_among(alloc, &procedures, decls)
}
