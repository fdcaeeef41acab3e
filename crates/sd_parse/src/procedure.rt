//! The rules for procedures and implementations.
ghost use Rattle.std.specs.Prelude.{◌≡◌, ◌<◌, ◌^◌};
ghost use Rattle.sd_parse.specs.ReadingPrograms as spec;
ghost use Rattle.sd_parse.specs.Reading.{Gives};

use crate::attribute::attributes;
use crate::class::TokenClass;
use crate::clause::clauses;
use crate::cursor::{Cursor, Fault};
use crate::statement::statements;
use crate::variables::{locals, vars};
use sd_ast::{Body, Decl, Head, Impl, Proc};
use sd_base::Var;
use sqlite_items::Items;
use std::alloc::Global;

/// The parameters after the parenthesis that opens.
#[tactic(auto, unfolding(crate::specs::ReadingPrograms::listed_parameters))]
fn listed(alloc: Global, tokens: &mut Cursor<'_>, limit: u32) -> Result<Items<Var>, Fault>
    ensures { Gives (spec.listed_parameters limit tokens.old) result tokens.new }
{
    match tokens.peek() {
        TokenClass::Close => {
            tokens.skip()?;
            Ok(Items::new(alloc))
        }
        _ => {
            let found = vars(alloc, tokens, limit)?;
            tokens.want(TokenClass::Close)?;
            Ok(found)
        }
    }
}

#[tactic(auto, unfolding(crate::specs::ReadingPrograms::parameters))]
fn parameters(alloc: Global, tokens: &mut Cursor<'_>, limit: u32) -> Result<Items<Var>, Fault>
    ensures { Gives (spec.parameters limit tokens.old) result tokens.new }
{
    tokens.want(TokenClass::Open)?;
    listed(alloc, tokens, limit)
}

#[tactic(auto, unfolding(crate::specs::ReadingPrograms::results))]
fn results(alloc: Global, tokens: &mut Cursor<'_>, limit: u32) -> Result<Items<Var>, Fault>
    ensures { Gives (spec.results limit tokens.old) result tokens.new }
{
    match tokens.peek() {
        TokenClass::Returns => {
            tokens.skip()?;
            parameters(alloc, tokens, limit)
        }
        _ => Ok(Items::new(alloc)),
    }
}

#[tactic(auto, unfolding(crate::specs::ReadingPrograms::head))]
fn head(alloc: Global, tokens: &mut Cursor<'_>, limit: u32) -> Result<Head, Fault>
    ensures { Gives (spec.head limit tokens.old) result tokens.new }
{
    let (name, at) = tokens.name(alloc)?;
    let ins = parameters(alloc, tokens, limit)?;
    let outs = results(alloc, tokens, limit)?;
    Ok(Head {
        name,
        at,
        ins,
        outs,
    })
}

#[tactic(auto, unfolding(crate::specs::ReadingPrograms::body))]
fn body(alloc: Global, tokens: &mut Cursor<'_>, limit: u32) -> Result<Body, Fault>
    requires { limit < 2 ^ 31 }
    ensures { Gives (spec.body limit tokens.old) result tokens.new }
{
    tokens.want(TokenClass::OpenBrace)?;
    let locals = locals(alloc, tokens, limit)?;
    let stmts = statements(alloc, tokens, limit)?;
    tokens.want(TokenClass::CloseBrace)?;
    Ok(Body { locals, stmts })
}

/// The clauses of a procedure without a body, from the semicolon on.
#[tactic(auto, unfolding(crate::specs::ReadingPrograms::declared))]
fn declared(alloc: Global, tokens: &mut Cursor<'_>, limit: u32, head: Head) -> Result<Decl, Fault>
    requires { limit < 2 ^ 31 }
    ensures { Gives (spec.declared limit head tokens.old) result tokens.new }
{
    tokens.skip()?;
    let specs = clauses(alloc, tokens, limit)?;
    Ok(Decl::Procedure(Proc {
        head,
        specs,
        body: None,
    }))
}

/// The clauses and the body of a procedure.
#[tactic(auto, unfolding(crate::specs::ReadingPrograms::defined))]
fn defined(alloc: Global, tokens: &mut Cursor<'_>, limit: u32, head: Head) -> Result<Decl, Fault>
    requires { limit < 2 ^ 31 }
    ensures { Gives (spec.defined limit head tokens.old) result tokens.new }
{
    let specs = clauses(alloc, tokens, limit)?;
    let body = body(alloc, tokens, limit)?;
    Ok(Decl::Procedure(Proc {
        head,
        specs,
        body: Some(body),
    }))
}

/// A procedure after its head.
#[tactic(auto, unfolding(crate::specs::ReadingPrograms::procedure_from))]
fn procedure_from(
    alloc: Global,
    tokens: &mut Cursor<'_>,
    limit: u32,
    head: Head,
) -> Result<Decl, Fault>
    requires { limit < 2 ^ 31 }
    ensures { Gives (spec.procedure_from limit head tokens.old) result tokens.new }
{
    match tokens.peek() {
        TokenClass::Semi => declared(alloc, tokens, limit, head),
        _ => defined(alloc, tokens, limit, head),
    }
}

/// A procedure, from its word on.
#[tactic(auto, unfolding(crate::specs::ReadingPrograms::procedure))]
pub fn procedure(alloc: Global, tokens: &mut Cursor<'_>, limit: u32) -> Result<Decl, Fault>
    requires { limit < 2 ^ 31 }
    ensures { Gives (spec.procedure limit tokens.old) result tokens.new }
{
    tokens.skip()?;
    attributes(alloc, tokens, limit)?;
    let head = head(alloc, tokens, limit)?;
    procedure_from(alloc, tokens, limit, head)
}

/// An implementation, from its word on.
#[tactic(auto, unfolding(crate::specs::ReadingPrograms::implementation))]
pub fn implementation(alloc: Global, tokens: &mut Cursor<'_>, limit: u32) -> Result<Decl, Fault>
    requires { limit < 2 ^ 31 }
    ensures { Gives (spec.implementation limit tokens.old) result tokens.new }
{
    tokens.skip()?;
    attributes(alloc, tokens, limit)?;
    let head = head(alloc, tokens, limit)?;
    let body = body(alloc, tokens, limit)?;
    Ok(Decl::Implementation(Impl { head, body }))
}
