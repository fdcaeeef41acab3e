//! The rules for names with their types.
ghost use Rattle.std.specs.Prelude.{◌≡◌, ◌<◌, ◌^◌, IfOk};
ghost use Rattle.sd_parse.specs.Programs as grammar;
ghost use Rattle.sd_parse.specs.ReadingRows as rows;
ghost use Rattle.sd_parse.specs.ReadingPrograms as spec;
ghost use Rattle.sd_parse.specs.Reading.{Gives};

use crate::attribute::attributes;
use crate::class::{TokenClass, same_class};
use crate::cursor::{Cursor, Fault};
use crate::names::names;
use crate::types::type_of;
use sd_base::{CloneOf, Name, NoMemory, Sort, Var};
use sqlite_items::Items;
use std::alloc::Global;

/// Variables of these names, of one type.
fn variables(alloc: Global, names: &Items<Name>, sort: &Sort) -> Result<Items<Var>, NoMemory>
    ensures { IfOk result (λ vars. vars ≡ grammar.variables names.now sort.now) }
{
    let mut vars = Items::new(alloc);
    for name in names.as_slice() {
        vars.push(Var {
            name: name.clone_of(alloc)?,
            sort: sort.clone_of(alloc)?,
        })?;
    }
    Ok(vars)
}

/// Names, a colon and their type.
#[tactic(auto, unfolding(crate::specs::ReadingPrograms::typed))]
pub fn typed(
    alloc: Global,
    tokens: &mut Cursor<'_>,
    limit: u32,
) -> Result<(Items<Name>, Sort), Fault>
    ensures { Gives (spec.typed limit tokens.old) result tokens.new }
{
    let names = names(alloc, tokens)?;
    tokens.want(TokenClass::Colon)?;
    let sort = type_of(alloc, tokens, limit)?;
    Ok((names, sort))
}

#[tactic(auto, unfolding(crate::specs::ReadingPrograms::group))]
fn group(alloc: Global, tokens: &mut Cursor<'_>, limit: u32) -> Result<Items<Var>, Fault>
    ensures { Gives (spec.group limit tokens.old) result tokens.new }
{
    let (names, sort) = typed(alloc, tokens, limit)?;
    Ok(variables(alloc, &names, &sort)?)
}

#[tactic(auto, unfolding(crate::specs::ReadingRows::next))]
fn next_group(alloc: Global, tokens: &mut Cursor<'_>, limit: u32) -> Result<Items<Var>, Fault>
    ensures { Gives (rows.next (spec.group limit) tokens.old) result tokens.new }
{
    tokens.skip()?;
    group(alloc, tokens, limit)
}

fn more_groups(
    alloc: Global,
    tokens: &mut Cursor<'_>,
    limit: u32,
    mut vars: Items<Var>,
) -> Result<Items<Var>, Fault>
    ensures { Gives (spec.more_groups limit vars tokens.old) result tokens.new }
{
    for _turn in 0..tokens.turns() {
        let has_next = same_class(tokens.peek(), TokenClass::Comma);
        if !has_next {
            return Ok(vars);
        }
        let next = next_group(alloc, tokens, limit)?;
        vars.append(next)?;
    }
    Err(Fault::Syntax)
}

/// Groups of names with their types, with commas between them.
#[tactic(auto, unfolding(crate::specs::ReadingPrograms::vars))]
pub fn vars(alloc: Global, tokens: &mut Cursor<'_>, limit: u32) -> Result<Items<Var>, Fault>
    ensures { Gives (spec.vars limit tokens.old) result tokens.new }
{
    let first = group(alloc, tokens, limit)?;
    more_groups(alloc, tokens, limit, first)
}

/// A line of variables, from its word on.
#[tactic(auto, unfolding(crate::specs::ReadingPrograms::var_line))]
pub fn var_line(alloc: Global, tokens: &mut Cursor<'_>, limit: u32) -> Result<Items<Var>, Fault>
    requires { limit < 2 ^ 31 }
    ensures { Gives (spec.var_line limit tokens.old) result tokens.new }
{
    tokens.skip()?;
    attributes(alloc, tokens, limit)?;
    let found = vars(alloc, tokens, limit)?;
    tokens.want(TokenClass::Semi)?;
    Ok(found)
}

/// The variables of the lines that stand here.
pub fn locals(alloc: Global, tokens: &mut Cursor<'_>, limit: u32) -> Result<Items<Var>, Fault>
    requires { limit < 2 ^ 31 }
    ensures { Gives (spec.locals limit tokens.old) result tokens.new }
{
    let mut vars = Items::new(alloc);
    for _turn in 0..tokens.turns() {
        let has_next = same_class(tokens.peek(), TokenClass::Var);
        if !has_next {
            return Ok(vars);
        }
        let next = var_line(alloc, tokens, limit)?;
        vars.append(next)?;
    }
    Err(Fault::Syntax)
}
