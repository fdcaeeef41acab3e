//! The rules for functions.
ghost use Rattle.std.specs.Prelude.{◌≡◌, ◌<◌, ◌^◌};
ghost use Rattle.sd_parse.specs.ReadingRows as rows;
ghost use Rattle.sd_parse.specs.ReadingPrograms as spec;
ghost use Rattle.sd_parse.specs.Reading.{Gives};

use crate::attribute::attributes;
use crate::class::{TokenClass, same_class};
use crate::cursor::{Cursor, Fault};
use crate::names::single;
use crate::types::type_of;
use sd_ast::Decl;
use sd_base::{Name, Sort};
use sqlite_items::Items;
use std::alloc::Global;

/// The type of an argument whose first name was read: it is that name where no colon follows.
#[tactic(auto, unfolding(crate::specs::ReadingPrograms::after_name))]
fn after_name(alloc: Global, tokens: &mut Cursor<'_>, limit: u32, name: Name) -> Result<Sort, Fault>
    ensures { Gives (spec.after_name limit name tokens.old) result tokens.new }
{
    match tokens.peek() {
        TokenClass::Colon => {
            tokens.skip()?;
            type_of(alloc, tokens, limit)
        }
        _ => Ok(Sort::Named(name)),
    }
}

#[tactic(auto, unfolding(crate::specs::ReadingPrograms::named_argument))]
fn named_argument(alloc: Global, tokens: &mut Cursor<'_>, limit: u32) -> Result<Sort, Fault>
    ensures { Gives (spec.named_argument limit tokens.old) result tokens.new }
{
    if limit == 0 {
        return Err(Fault::Deep);
    }
    let (name, _) = tokens.name(alloc)?;
    after_name(alloc, tokens, limit, name)
}

/// The type of an argument; a name before it is dropped.
#[tactic(auto, unfolding(crate::specs::ReadingPrograms::argument))]
fn argument(alloc: Global, tokens: &mut Cursor<'_>, limit: u32) -> Result<Sort, Fault>
    ensures { Gives (spec.argument limit tokens.old) result tokens.new }
{
    match tokens.peek() {
        TokenClass::Name => named_argument(alloc, tokens, limit),
        _ => type_of(alloc, tokens, limit),
    }
}

#[tactic(auto, unfolding(crate::specs::ReadingRows::next))]
fn next_argument(alloc: Global, tokens: &mut Cursor<'_>, limit: u32) -> Result<Sort, Fault>
    ensures { Gives (rows.next (spec.argument limit) tokens.old) result tokens.new }
{
    tokens.skip()?;
    argument(alloc, tokens, limit)
}

fn more_arguments(
    alloc: Global,
    tokens: &mut Cursor<'_>,
    limit: u32,
    mut sorts: Items<Sort>,
) -> Result<Items<Sort>, Fault>
    ensures { Gives (rows.more (spec.argument limit) sorts tokens.old) result tokens.new }
{
    for _turn in 0..tokens.turns() {
        let has_next = same_class(tokens.peek(), TokenClass::Comma);
        if !has_next {
            return Ok(sorts);
        }
        let next = next_argument(alloc, tokens, limit)?;
        sorts.push(next)?;
    }
    Err(Fault::Syntax)
}

#[tactic(auto, unfolding(crate::specs::ReadingRows::commas))]
fn argument_sorts(alloc: Global, tokens: &mut Cursor<'_>, limit: u32) -> Result<Items<Sort>, Fault>
    ensures { Gives (rows.commas (spec.argument limit) tokens.old) result tokens.new }
{
    let first = argument(alloc, tokens, limit)?;
    let first = single(alloc, first)?;
    more_arguments(alloc, tokens, limit, first)
}

#[tactic(auto, unfolding(crate::specs::ReadingRows::listed))]
fn listed(alloc: Global, tokens: &mut Cursor<'_>, limit: u32) -> Result<Items<Sort>, Fault>
    ensures { Gives (rows.listed (spec.argument limit) tokens.old) result tokens.new }
{
    match tokens.peek() {
        TokenClass::Close => {
            tokens.skip()?;
            Ok(Items::new(alloc))
        }
        _ => {
            let found = argument_sorts(alloc, tokens, limit)?;
            tokens.want(TokenClass::Close)?;
            Ok(found)
        }
    }
}

#[tactic(auto, unfolding(crate::specs::ReadingRows::enclosed))]
fn arguments(alloc: Global, tokens: &mut Cursor<'_>, limit: u32) -> Result<Items<Sort>, Fault>
    ensures { Gives (rows.enclosed (spec.argument limit) tokens.old) result tokens.new }
{
    tokens.want(TokenClass::Open)?;
    listed(alloc, tokens, limit)
}

#[tactic(auto, unfolding(crate::specs::ReadingPrograms::returned_type))]
fn returned_type(alloc: Global, tokens: &mut Cursor<'_>, limit: u32) -> Result<Sort, Fault>
    ensures { Gives (spec.returned_type limit tokens.old) result tokens.new }
{
    tokens.skip()?;
    tokens.want(TokenClass::Open)?;
    let sort = argument(alloc, tokens, limit)?;
    tokens.want(TokenClass::Close)?;
    Ok(sort)
}

#[tactic(auto, unfolding(crate::specs::ReadingPrograms::colon_type))]
fn colon_type(alloc: Global, tokens: &mut Cursor<'_>, limit: u32) -> Result<Sort, Fault>
    ensures { Gives (spec.colon_type limit tokens.old) result tokens.new }
{
    tokens.want(TokenClass::Colon)?;
    type_of(alloc, tokens, limit)
}

#[tactic(auto, unfolding(crate::specs::ReadingPrograms::result_type))]
fn result_type(alloc: Global, tokens: &mut Cursor<'_>, limit: u32) -> Result<Sort, Fault>
    ensures { Gives (spec.result_type limit tokens.old) result tokens.new }
{
    match tokens.peek() {
        TokenClass::Returns => returned_type(alloc, tokens, limit),
        _ => colon_type(alloc, tokens, limit),
    }
}

/// A function, from its word on.
#[tactic(auto, unfolding(crate::specs::ReadingPrograms::function))]
pub fn function(alloc: Global, tokens: &mut Cursor<'_>, limit: u32) -> Result<Decl, Fault>
    requires { limit < 2 ^ 31 }
    ensures { Gives (spec.function limit tokens.old) result tokens.new }
{
    tokens.skip()?;
    attributes(alloc, tokens, limit)?;
    let (name, _) = tokens.name(alloc)?;
    let args = arguments(alloc, tokens, limit)?;
    let result = result_type(alloc, tokens, limit)?;
    tokens.want(TokenClass::Semi)?;
    Ok(Decl::Function { name, args, result })
}
