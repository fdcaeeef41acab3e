//! The rules for expressions with commas between them.
ghost use Rattle.std.specs.Prelude.{◌<◌, ◌^◌};
ghost use Rattle.sd_parse.specs.ReadingRows as rows;
ghost use Rattle.sd_parse.specs.ReadingClauses as spec;
ghost use Rattle.sd_parse.specs.Reading.{Gives};

use crate::attribute::expression;
use crate::class::{TokenClass, same_class};
use crate::cursor::{Cursor, Fault};
use crate::names::single;
use sd_ast::Expr;
use sqlite_items::Items;
use std::alloc::Global;

#[tactic(auto, unfolding(crate::specs::ReadingRows::next))]
fn next_value(alloc: Global, tokens: &mut Cursor<'_>, depth: u32) -> Result<Expr, Fault>
    requires { depth < 2 ^ 31 }
    ensures { Gives (rows.next (spec.expression depth) tokens.old) result tokens.new }
{
    tokens.skip()?;
    expression(alloc, tokens, depth)
}

fn more_values(
    alloc: Global,
    tokens: &mut Cursor<'_>,
    depth: u32,
    mut values: Items<Expr>,
) -> Result<Items<Expr>, Fault>
    requires { depth < 2 ^ 31 }
    ensures { Gives (rows.more (spec.expression depth) values tokens.old) result tokens.new }
{
    for _turn in 0..tokens.turns() {
        let has_next = same_class(tokens.peek(), TokenClass::Comma);
        if !has_next {
            return Ok(values);
        }
        let next = next_value(alloc, tokens, depth)?;
        values.push(next)?;
    }
    Err(Fault::Syntax)
}

/// Expressions of this height at most with commas between them.
#[tactic(auto, unfolding(crate::specs::ReadingRows::commas))]
pub fn values(alloc: Global, tokens: &mut Cursor<'_>, depth: u32) -> Result<Items<Expr>, Fault>
    requires { depth < 2 ^ 31 }
    ensures { Gives (rows.commas (spec.expression depth) tokens.old) result tokens.new }
{
    let first = expression(alloc, tokens, depth)?;
    let first = single(alloc, first)?;
    more_values(alloc, tokens, depth, first)
}

#[tactic(auto, unfolding(crate::specs::ReadingRows::listed))]
fn listed(alloc: Global, tokens: &mut Cursor<'_>, depth: u32) -> Result<Items<Expr>, Fault>
    requires { depth < 2 ^ 31 }
    ensures { Gives (rows.listed (spec.expression depth) tokens.old) result tokens.new }
{
    match tokens.peek() {
        TokenClass::Close => {
            tokens.skip()?;
            Ok(Items::new(alloc))
        }
        _ => {
            let found = values(alloc, tokens, depth)?;
            tokens.want(TokenClass::Close)?;
            Ok(found)
        }
    }
}

/// Arguments in their parentheses.
#[tactic(auto, unfolding(crate::specs::ReadingRows::enclosed))]
pub fn arguments(alloc: Global, tokens: &mut Cursor<'_>, depth: u32) -> Result<Items<Expr>, Fault>
    requires { depth < 2 ^ 31 }
    ensures { Gives (rows.enclosed (spec.expression depth) tokens.old) result tokens.new }
{
    tokens.want(TokenClass::Open)?;
    listed(alloc, tokens, depth)
}
