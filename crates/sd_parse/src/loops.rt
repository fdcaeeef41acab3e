//! The rules for the invariants of loops.
ghost use Rattle.std.specs.Prelude.{◌≡◌, ◌<◌, ◌^◌};
ghost use Rattle.sd_parse.specs.ReadingStatements as spec;
ghost use Rattle.sd_parse.specs.Reading.{Gives};

use crate::attribute::claim;
use crate::class::TokenClass;
use crate::cursor::{Cursor, Fault};
use sd_ast::Invariant;
use sqlite_items::Items;
use std::alloc::Global;

fn begins_invariant(class: TokenClass) -> bool
    ensures { result ≡ spec.begins_invariant class }
{
    match class {
        TokenClass::Free | TokenClass::Invariant => true,
        _ => false,
    }
}

/// An invariant from its own word on.
#[tactic(auto, unfolding(crate::specs::ReadingStatements::stated_invariant))]
fn stated_invariant(
    alloc: Global,
    tokens: &mut Cursor<'_>,
    limit: u32,
    depth: u32,
    free: bool,
) -> Result<Invariant, Fault>
    requires low { limit < 2 ^ 31 }
    requires small { depth < 2 ^ 31 }
    ensures { Gives (spec.stated_invariant limit depth free tokens.old) result tokens.new }
{
    let (_, expr) = claim(alloc, tokens, limit, depth, TokenClass::Invariant)?;
    Ok(Invariant { free, expr })
}

#[tactic(auto, unfolding(crate::specs::ReadingStatements::loop_invariant))]
fn invariant(
    alloc: Global,
    tokens: &mut Cursor<'_>,
    limit: u32,
    depth: u32,
) -> Result<Invariant, Fault>
    requires low { limit < 2 ^ 31 }
    requires small { depth < 2 ^ 31 }
    ensures { Gives (spec.loop_invariant limit depth tokens.old) result tokens.new }
{
    match tokens.peek() {
        TokenClass::Free => {
            tokens.skip()?;
            stated_invariant(alloc, tokens, limit, depth, true)
        }
        _ => stated_invariant(alloc, tokens, limit, depth, false),
    }
}

/// Invariants, as many as there are.
pub fn invariants(
    alloc: Global,
    tokens: &mut Cursor<'_>,
    limit: u32,
    depth: u32,
) -> Result<Items<Invariant>, Fault>
    requires low { limit < 2 ^ 31 }
    requires small { depth < 2 ^ 31 }
    ensures { Gives (spec.invariants limit depth tokens.old) result tokens.new }
{
    let mut found = Items::new(alloc);
    for _turn in 0..tokens.turns() {
        let begins = begins_invariant(tokens.peek());
        if !begins {
            return Ok(found);
        }
        let next = invariant(alloc, tokens, limit, depth)?;
        found.push(next)?;
    }
    Err(Fault::Syntax)
}
