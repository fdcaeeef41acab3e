//! What a text declares, and what names stand for at a place of it.
ghost use Rattle.std.specs.Prelude.{◌≡◌, IsTrue};
ghost use Rattle.std.specs.Option.{option_copied};
ghost use Rattle.sd_types.specs.Scopes.{may_name, variable_at};

use crate::table::{NameList, Table};
use sd_base::{Name, Place, Sort};
use sqlite_items::Items;

/// What a variable is to its procedure.
#[derive(Clone, Copy, Debug, PartialEq, Eq)]
pub enum Nature {
    Constant,
    Global,
    Input,
    Output,
    Local,
}

/// A variable as expressions and assignments see it.
#[derive(Drop)]
pub struct Variable {
    pub sort: Sort,
    pub nature: Nature,
}

/// The types of a function.
#[derive(Drop)]
pub struct Signature {
    pub args: Items<Sort>,
    pub result: Sort,
}

/// What calls and implementations see of a procedure.
#[derive(Drop)]
pub struct Callee {
    pub ins: Items<Sort>,
    pub outs: Items<Sort>,
    /// The names in its `modifies`, in order.
    pub modifies: Items<Name>,
}

/// What a text declares.
#[derive(Drop)]
pub struct Scope {
    pub types: NameList,
    /// The globals and the constants.
    pub globals: Table<Variable>,
    pub functions: Table<Signature>,
    pub procedures: Table<Callee>,
    /// The procedures that have a body.
    pub bodies: NameList,
}

/// What the statements of a body see: the text, the variables of the body, and the `modifies` of the procedure.
#[derive(Clone, Copy)]
pub(crate) struct Frame<'a> {
    pub scope: &'a Scope,
    pub locals: &'a Table<Variable>,
    pub modifies: &'a NameList,
}

/// Where an expression stands.
#[derive(Clone, Copy, Debug, PartialEq, Eq)]
pub enum Site {
    Axiom,
    Requires,
    Ensures,
    Body,
}

/// The type of an expression, at the place of the expression.
#[derive(Drop)]
pub struct Given {
    pub at: Place,
    pub sort: Sort,
}

/// What a name stands for in an expression: a parameter or local, else a global or constant. An axiom sees constants
/// alone, and a `requires` no out-parameter.
pub(crate) fn find_variable<'a>(
    scope: &'a Scope,
    locals: &'a Table<Variable>,
    site: Site,
    name: &Name,
) -> Option<&'a Variable>
    ensures { option_copied result ≡ variable_at scope.now locals.now site name.now }
{
    let variable = match locals.get(name) {
        Some(variable) => variable,
        None => scope.globals.get(name)?,
    };
    if is_named_in(site, variable.nature) {
        Some(variable)
    } else {
        None
    }
}

/// Whether an expression that stands there may name such a variable.
fn is_named_in(site: Site, nature: Nature) -> bool
    ensures { result ≡ may_name site nature }
{
    match site {
        Site::Axiom => matches!(nature, Nature::Constant),
        Site::Requires => !matches!(nature, Nature::Output),
        Site::Ensures | Site::Body => true,
    }
}
