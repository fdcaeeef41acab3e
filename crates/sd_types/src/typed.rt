//! Well-typed programs.
ghost use Rattle.std.specs.Prelude.{◌≡◌, ◌≢◌, Some, IfOk, IfErr};
ghost use Rattle.sd_types.specs.declared.refusal.TypeError.TheVariants.{NoMemory as OutOfMemory};
ghost use Rattle.sd_types.specs.Answer.{Answers};
ghost use Rattle.sd_types.specs.Declarations.{program_rule, first_broken, WellTyped};

use crate::declaration::check_decls;
use crate::declare::scope_of;
use crate::refusal::TypeError;
use sd_ast::Program;
use std::alloc::Global;
use std::marker::Model;

/// A well-typed program.
#[derive(Drop)]
pub struct Typed {
    program: Program,
}

impl Model for Typed {
    ghost use Rattle.sd_ast.specs.declared.tree.Program.{Program};
    ghost use Rattle.std.specs.Coded.{codes};
    ghost use Rattle.sd_base.specs.contracts.sort.Sort as sort;
    ghost use Rattle.sd_ast.specs.contracts.tree.ExprKind as expr;
    ghost use Rattle.sd_ast.specs.contracts.tree.StmtKind as stmt;
    ghost use Rattle.sd_types.specs.Declarations.{WellTyped};

    ghost Value = { Program };

    ghost coded = { Prim.hlevel (codes, sort.the_row.coded, expr.the_row.coded, stmt.the_row.coded) };

    ghost view = { λ t. t.program };

    ghost invariant = { λ t. WellTyped t.program };
}

impl Typed {
    /// The tree.
    pub fn program(&self) -> &Program
        ensures program { result.now ≡ self.now }
        ensures typed { WellTyped self.now }
    {
        &self.program
    }
}

/// The first rule that a program breaks, with the names that stand before the other rules.
fn check_program(alloc: Global, program: &Program) -> Result<(), TypeError>
    ensures { Answers (program_rule program.now) result }
{
    let scope = scope_of(alloc, &program.decls)?;
    check_decls(alloc, &scope, &program.decls)
}

/// Takes a program that breaks no rule. Another one comes back unchanged with the first rule that it breaks: names that
/// are declared twice in text order, then the declarations in text order, each from left to right, inner phrases first.
pub fn check(alloc: Global, program: Program) -> Result<Typed, (Program, TypeError)>
    ensures program { IfOk result (λ t. t ≡ program) }
    ensures typed { IfOk result WellTyped }
    ensures unchanged { IfErr result (λ e. e.0 ≡ program) }
    ensures refused { IfErr result (λ e. e.1 ≢ OutOfMemory → first_broken program ≡ Some e.1) }
{
    match check_program(alloc, &program) {
        Ok(()) => Ok(Typed { program }),
        Err(error) => Err((program, error)),
    }
}
