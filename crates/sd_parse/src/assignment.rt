//! The rules for the left sides of assignments.
ghost use Rattle.std.specs.Prelude.{◌≡◌, ◌<◌, ◌^◌};
ghost use Rattle.sd_ast.specs.declared.Left.{Left as Tree};
ghost use Rattle.sd_parse.specs.ReadingRows as rows;
ghost use Rattle.sd_parse.specs.ReadingStatements as spec;
ghost use Rattle.sd_parse.specs.Reading.{Gives};

use crate::attribute::expression;
use crate::class::{TokenClass, same_class};
use crate::cursor::{Cursor, Fault};
use sd_ast::{Expr, Left};
use sd_base::Place;
use sqlite_items::Items;
use std::alloc::Global;

#[tactic(auto, unfolding(crate::specs::ReadingStatements::index))]
fn index(alloc: Global, tokens: &mut Cursor<'_>, depth: u32) -> Result<Expr, Fault>
    requires { depth < 2 ^ 31 }
    ensures { Gives (spec.index depth tokens.old) result tokens.new }
{
    tokens.skip()?;
    let found = expression(alloc, tokens, depth)?;
    tokens.want(TokenClass::CloseBracket)?;
    Ok(found)
}

fn indices(alloc: Global, tokens: &mut Cursor<'_>, depth: u32) -> Result<Items<Expr>, Fault>
    requires { depth < 2 ^ 31 }
    ensures { Gives (spec.indices depth tokens.old) result tokens.new }
{
    let mut found = Items::new(alloc);
    for _turn in 0..tokens.turns() {
        let has_next = same_class(tokens.peek(), TokenClass::OpenBracket);
        if !has_next {
            return Ok(found);
        }
        let next = index(alloc, tokens, depth)?;
        found.push(next)?;
    }
    Err(Fault::Syntax)
}

/// A left side, and the place of its name.
#[tactic(auto, unfolding(crate::specs::ReadingStatements::left))]
pub fn left(alloc: Global, tokens: &mut Cursor<'_>, depth: u32) -> Result<(Left, Place), Fault>
    requires { depth < 2 ^ 31 }
    ensures { Gives (spec.left depth tokens.old) result tokens.new }
{
    let (name, at) = tokens.name(alloc)?;
    let indices = indices(alloc, tokens, depth)?;
    Ok((Left { name, indices }, at))
}

#[tactic(auto, unfolding(crate::specs::ReadingStatements::plain_left))]
fn plain_left(alloc: Global, tokens: &mut Cursor<'_>, depth: u32) -> Result<Left, Fault>
    requires { depth < 2 ^ 31 }
    ensures { Gives (spec.plain_left depth tokens.old) result tokens.new }
{
    let (found, _) = left(alloc, tokens, depth)?;
    Ok(found)
}

#[tactic(auto, unfolding(crate::specs::ReadingRows::next))]
fn next_left(alloc: Global, tokens: &mut Cursor<'_>, depth: u32) -> Result<Left, Fault>
    requires { depth < 2 ^ 31 }
    ensures { Gives (rows.next (spec.plain_left depth) tokens.old) result tokens.new }
{
    tokens.skip()?;
    plain_left(alloc, tokens, depth)
}

/// These left sides, and those that follow, each after a comma.
pub fn more_lefts(
    alloc: Global,
    tokens: &mut Cursor<'_>,
    depth: u32,
    mut lefts: Items<Left>,
) -> Result<Items<Left>, Fault>
    requires { depth < 2 ^ 31 }
    ensures { Gives (rows.more (spec.plain_left depth) lefts tokens.old) result tokens.new }
{
    for _turn in 0..tokens.turns() {
        let has_next = same_class(tokens.peek(), TokenClass::Comma);
        if !has_next {
            return Ok(lefts);
        }
        let next = next_left(alloc, tokens, depth)?;
        lefts.push(next)?;
    }
    Err(Fault::Syntax)
}
