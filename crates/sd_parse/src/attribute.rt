//! The rules for attributes, and for claims: a word, attributes, an expression and a semicolon.
ghost use Rattle.std.specs.Prelude.{◌<◌, ◌^◌};
ghost use Rattle.sd_parse.specs.ReadingClauses as spec;
ghost use Rattle.sd_parse.specs.Reading.{Gives};

use crate::class::{TokenClass, same_class};
use crate::cursor::{Cursor, Fault};
use crate::expression::read;
use crate::level::Level;
use sd_ast::Expr;
use sd_base::Place;
use std::alloc::Global;

/// The expression of this height at most that the tokens begin with, without its height.
#[tactic(auto, unfolding(crate::specs::ReadingClauses::expression))]
pub fn expression(alloc: Global, tokens: &mut Cursor<'_>, depth: u32) -> Result<Expr, Fault>
    requires { depth < 2 ^ 31 }
    ensures { Gives (spec.expression depth tokens.old) result tokens.new }
{
    let (tree, _, _) = read(alloc, tokens, depth, Level::Whole)?;
    Ok(tree)
}

/// An expression or a text, which is dropped.
#[tactic(auto, unfolding(crate::specs::ReadingClauses::datum))]
fn datum(alloc: Global, tokens: &mut Cursor<'_>, limit: u32) -> Result<(), Fault>
    requires { limit < 2 ^ 31 }
    ensures { Gives (spec.datum limit tokens.old) result tokens.new }
{
    match tokens.peek() {
        TokenClass::Text => {
            tokens.skip()?;
            Ok(())
        }
        _ => {
            expression(alloc, tokens, limit)?;
            Ok(())
        }
    }
}

#[tactic(auto, unfolding(crate::specs::ReadingClauses::next_datum))]
fn next_datum(alloc: Global, tokens: &mut Cursor<'_>, limit: u32) -> Result<(), Fault>
    requires { limit < 2 ^ 31 }
    ensures { Gives (spec.next_datum limit tokens.old) result tokens.new }
{
    tokens.skip()?;
    datum(alloc, tokens, limit)
}

fn more_data(alloc: Global, tokens: &mut Cursor<'_>, limit: u32) -> Result<(), Fault>
    requires { limit < 2 ^ 31 }
    ensures { Gives (spec.more_data limit tokens.old) result tokens.new }
{
    for _turn in 0..tokens.turns() {
        let has_next = same_class(tokens.peek(), TokenClass::Comma);
        if !has_next {
            return Ok(());
        }
        next_datum(alloc, tokens, limit)?;
    }
    Err(Fault::Syntax)
}

/// What stands in an attribute after its name.
#[tactic(auto, unfolding(crate::specs::ReadingClauses::contents))]
fn contents(alloc: Global, tokens: &mut Cursor<'_>, limit: u32) -> Result<(), Fault>
    requires { limit < 2 ^ 31 }
    ensures { Gives (spec.contents limit tokens.old) result tokens.new }
{
    match tokens.peek() {
        TokenClass::CloseBrace => Ok(()),
        _ => {
            datum(alloc, tokens, limit)?;
            more_data(alloc, tokens, limit)
        }
    }
}

#[tactic(auto, unfolding(crate::specs::ReadingClauses::attribute))]
fn attribute(alloc: Global, tokens: &mut Cursor<'_>, limit: u32) -> Result<(), Fault>
    requires { limit < 2 ^ 31 }
    ensures { Gives (spec.attribute limit tokens.old) result tokens.new }
{
    tokens.skip()?;
    tokens.name(alloc)?;
    contents(alloc, tokens, limit)?;
    tokens.want(TokenClass::CloseBrace)?;
    Ok(())
}

/// Attributes, as many as there are. They are dropped, and no expression in them is higher than `limit`.
pub fn attributes(alloc: Global, tokens: &mut Cursor<'_>, limit: u32) -> Result<(), Fault>
    requires { limit < 2 ^ 31 }
    ensures { Gives (spec.attributes limit tokens.old) result tokens.new }
{
    for _turn in 0..tokens.turns() {
        let has_next = same_class(tokens.peek(), TokenClass::OpenAttribute);
        if !has_next {
            return Ok(());
        }
        attribute(alloc, tokens, limit)?;
    }
    Err(Fault::Syntax)
}

/// This word, attributes, an expression of the height `depth` at most and a semicolon. It gives the word's place and
/// the expression.
#[tactic(auto, unfolding(crate::specs::ReadingClauses::claim))]
pub fn claim(
    alloc: Global,
    tokens: &mut Cursor<'_>,
    limit: u32,
    depth: u32,
    word: TokenClass,
) -> Result<(Place, Expr), Fault>
    requires low { limit < 2 ^ 31 }
    requires small { depth < 2 ^ 31 }
    ensures { Gives (spec.claim limit depth word tokens.old) result tokens.new }
{
    let at = tokens.want(word)?;
    attributes(alloc, tokens, limit)?;
    let claimed = expression(alloc, tokens, depth)?;
    tokens.want(TokenClass::Semi)?;
    Ok((at, claimed))
}
