//! The rules for the clauses of procedures.
ghost use Rattle.std.specs.Prelude.{◌≡◌, ◌<◌, ◌^◌};
ghost use Rattle.sd_parse.specs.ReadingPrograms as spec;
ghost use Rattle.sd_parse.specs.Reading.{Gives};

use crate::attribute::claim;
use crate::class::TokenClass;
use crate::cursor::{Cursor, Fault};
use crate::names::names;
use sd_ast::Spec;
use sd_base::Name;
use sqlite_items::Items;
use std::alloc::Global;

fn begins_spec(class: TokenClass) -> bool
    ensures { result ≡ spec.begins_spec class }
{
    match class {
        TokenClass::Modifies | TokenClass::Free | TokenClass::Requires | TokenClass::Ensures =>
            true,
        _ => false,
    }
}

#[tactic(auto, unfolding(crate::specs::ReadingPrograms::modified))]
fn modified(alloc: Global, tokens: &mut Cursor<'_>) -> Result<Items<Name>, Fault>
    ensures { Gives (spec.modified tokens.old) result tokens.new }
{
    match tokens.peek() {
        TokenClass::Semi => Ok(Items::new(alloc)),
        _ => names(alloc, tokens),
    }
}

#[tactic(auto, unfolding(crate::specs::ReadingPrograms::modifies))]
fn modifies(alloc: Global, tokens: &mut Cursor<'_>) -> Result<Spec, Fault>
    ensures { Gives (spec.modifies tokens.old) result tokens.new }
{
    tokens.skip()?;
    let names = modified(alloc, tokens)?;
    tokens.want(TokenClass::Semi)?;
    Ok(Spec::Modifies(names))
}

#[tactic(auto, unfolding(crate::specs::ReadingPrograms::required))]
fn required(alloc: Global, tokens: &mut Cursor<'_>, limit: u32, free: bool) -> Result<Spec, Fault>
    requires { limit < 2 ^ 31 }
    ensures { Gives (spec.required limit free tokens.old) result tokens.new }
{
    let (_, condition) = claim(alloc, tokens, limit, limit, TokenClass::Requires)?;
    Ok(Spec::Requires(free, condition))
}

#[tactic(auto, unfolding(crate::specs::ReadingPrograms::ensured))]
fn ensured(alloc: Global, tokens: &mut Cursor<'_>, limit: u32, free: bool) -> Result<Spec, Fault>
    requires { limit < 2 ^ 31 }
    ensures { Gives (spec.ensured limit free tokens.old) result tokens.new }
{
    let (_, condition) = claim(alloc, tokens, limit, limit, TokenClass::Ensures)?;
    Ok(Spec::Ensures(free, condition))
}

/// A clause with an expression, from its own word on.
#[tactic(auto, unfolding(crate::specs::ReadingPrograms::condition))]
fn condition(alloc: Global, tokens: &mut Cursor<'_>, limit: u32, free: bool) -> Result<Spec, Fault>
    requires { limit < 2 ^ 31 }
    ensures { Gives (spec.condition limit free tokens.old) result tokens.new }
{
    match tokens.peek() {
        TokenClass::Requires => required(alloc, tokens, limit, free),
        TokenClass::Ensures => ensured(alloc, tokens, limit, free),
        _ => Err(Fault::Syntax),
    }
}

#[tactic(auto, unfolding(crate::specs::ReadingPrograms::free_condition))]
fn free_condition(alloc: Global, tokens: &mut Cursor<'_>, limit: u32) -> Result<Spec, Fault>
    requires { limit < 2 ^ 31 }
    ensures { Gives (spec.free_condition limit tokens.old) result tokens.new }
{
    tokens.skip()?;
    condition(alloc, tokens, limit, true)
}

#[tactic(auto, unfolding(crate::specs::ReadingPrograms::clause))]
fn clause(alloc: Global, tokens: &mut Cursor<'_>, limit: u32) -> Result<Spec, Fault>
    requires { limit < 2 ^ 31 }
    ensures { Gives (spec.clause limit tokens.old) result tokens.new }
{
    match tokens.peek() {
        TokenClass::Modifies => modifies(alloc, tokens),
        TokenClass::Free => free_condition(alloc, tokens, limit),
        _ => condition(alloc, tokens, limit, false),
    }
}

/// Clauses, as many as there are.
pub fn clauses(alloc: Global, tokens: &mut Cursor<'_>, limit: u32) -> Result<Items<Spec>, Fault>
    requires { limit < 2 ^ 31 }
    ensures { Gives (spec.clauses limit tokens.old) result tokens.new }
{
    let mut found = Items::new(alloc);
    for _turn in 0..tokens.turns() {
        let begins = begins_spec(tokens.peek());
        if !begins {
            return Ok(found);
        }
        let next = clause(alloc, tokens, limit)?;
        found.push(next)?;
    }
    Err(Fault::Syntax)
}
