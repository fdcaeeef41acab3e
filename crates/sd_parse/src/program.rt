//! The rules for declarations and programs.
ghost use Rattle.std.specs.Prelude.{◌≡◌, ◌<◌, ◌^◌};
ghost use Rattle.sd_parse.specs.ReadingPrograms as spec;
ghost use Rattle.sd_parse.specs.Reading.{Gives};

use crate::attribute::{attributes, claim};
use crate::class::TokenClass;
use crate::cursor::{Cursor, Fault};
use crate::function::function;
use crate::names::names;
use crate::procedure::{implementation, procedure};
use crate::variables::{typed, var_line};
use sd_ast::Decl;
use sqlite_items::Items;
use std::alloc::Global;

fn begins_declaration(class: TokenClass) -> bool
    ensures { result ≡ spec.begins_declaration class }
{
    match class {
        TokenClass::Type
        | TokenClass::Const
        | TokenClass::Function
        | TokenClass::Axiom
        | TokenClass::Var
        | TokenClass::Procedure
        | TokenClass::Implementation => true,
        _ => false,
    }
}

#[tactic(auto, unfolding(crate::specs::ReadingPrograms::types))]
fn types(alloc: Global, tokens: &mut Cursor<'_>, limit: u32) -> Result<Decl, Fault>
    requires { limit < 2 ^ 31 }
    ensures { Gives (spec.types limit tokens.old) result tokens.new }
{
    tokens.skip()?;
    attributes(alloc, tokens, limit)?;
    let names = names(alloc, tokens)?;
    tokens.want(TokenClass::Semi)?;
    Ok(Decl::Types(names))
}

#[tactic(auto, unfolding(crate::specs::ReadingPrograms::uniqueness))]
fn uniqueness(tokens: &mut Cursor<'_>) -> Result<bool, Fault>
    ensures { Gives (spec.uniqueness tokens.old) result tokens.new }
{
    match tokens.peek() {
        TokenClass::Unique => {
            tokens.skip()?;
            Ok(true)
        }
        _ => Ok(false),
    }
}

#[tactic(auto, unfolding(crate::specs::ReadingPrograms::constants))]
fn constants(alloc: Global, tokens: &mut Cursor<'_>, limit: u32) -> Result<Decl, Fault>
    requires { limit < 2 ^ 31 }
    ensures { Gives (spec.constants limit tokens.old) result tokens.new }
{
    tokens.skip()?;
    attributes(alloc, tokens, limit)?;
    let unique = uniqueness(tokens)?;
    let (names, sort) = typed(alloc, tokens, limit)?;
    tokens.want(TokenClass::Semi)?;
    Ok(Decl::Const {
        unique,
        names,
        sort,
    })
}

#[tactic(auto, unfolding(crate::specs::ReadingPrograms::axiom_line))]
fn axiom(alloc: Global, tokens: &mut Cursor<'_>, limit: u32) -> Result<Decl, Fault>
    requires { limit < 2 ^ 31 }
    ensures { Gives (spec.axiom_line limit tokens.old) result tokens.new }
{
    let (_, claimed) = claim(alloc, tokens, limit, limit, TokenClass::Axiom)?;
    Ok(Decl::Axiom(claimed))
}

#[tactic(auto, unfolding(crate::specs::ReadingPrograms::globals))]
fn globals(alloc: Global, tokens: &mut Cursor<'_>, limit: u32) -> Result<Decl, Fault>
    requires { limit < 2 ^ 31 }
    ensures { Gives (spec.globals limit tokens.old) result tokens.new }
{
    let vars = var_line(alloc, tokens, limit)?;
    Ok(Decl::Globals(vars))
}

#[tactic(auto, unfolding(crate::specs::ReadingPrograms::declaration))]
fn declaration(alloc: Global, tokens: &mut Cursor<'_>, limit: u32) -> Result<Decl, Fault>
    requires { limit < 2 ^ 31 }
    ensures { Gives (spec.declaration limit tokens.old) result tokens.new }
{
    match tokens.peek() {
        TokenClass::Type => types(alloc, tokens, limit),
        TokenClass::Const => constants(alloc, tokens, limit),
        TokenClass::Function => function(alloc, tokens, limit),
        TokenClass::Axiom => axiom(alloc, tokens, limit),
        TokenClass::Var => globals(alloc, tokens, limit),
        TokenClass::Procedure => procedure(alloc, tokens, limit),
        TokenClass::Implementation => implementation(alloc, tokens, limit),
        _ => Err(Fault::Syntax),
    }
}

fn declarations(alloc: Global, tokens: &mut Cursor<'_>, limit: u32) -> Result<Items<Decl>, Fault>
    requires { limit < 2 ^ 31 }
    ensures { Gives (spec.declarations limit tokens.old) result tokens.new }
{
    let mut decls = Items::new(alloc);
    for _turn in 0..tokens.turns() {
        let begins = begins_declaration(tokens.peek());
        if !begins {
            return Ok(decls);
        }
        let next = declaration(alloc, tokens, limit)?;
        decls.push(next)?;
    }
    Err(Fault::Syntax)
}

/// The declarations that the tokens are, up to their end, with no phrase higher than `limit`.
#[tactic(auto, unfolding(crate::specs::ReadingPrograms::program, crate::specs::ReadingPrograms::ended))]
pub fn program(alloc: Global, tokens: &mut Cursor<'_>, limit: u32) -> Result<Items<Decl>, Fault>
    requires { limit < 2 ^ 31 }
    ensures { Gives (spec.program limit tokens.old) result tokens.new }
{
    let decls = declarations(alloc, tokens, limit)?;
    if tokens.left() > 0 {
        return Err(Fault::Syntax);
    }
    Ok(decls)
}
