//! The rules for names with commas between them.
ghost use Rattle.std.specs.Prelude.{◌≡◌, ◌∷◌, [], IfOk};
ghost use Rattle.sd_parse.specs.ReadingRows as spec;
ghost use Rattle.sd_parse.specs.Reading.{Gives};

use crate::class::{TokenClass, same_class};
use crate::cursor::{Cursor, Fault};
use sd_base::Name;
use sqlite_items::Items;
use std::alloc::{AllocError, Global};

/// A list of this item alone.
pub fn single<T: Drop>(alloc: Global, item: T) -> Result<Items<T>, AllocError>
    ensures { IfOk result (λ list. list ≡ item ∷ []) }
{
    let mut list = Items::new(alloc);
    list.push(item)?;
    Ok(list)
}

/// A name without its place.
#[tactic(auto, unfolding(crate::specs::ReadingRows::plain_name))]
pub fn plain_name(alloc: Global, tokens: &mut Cursor<'_>) -> Result<Name, Fault>
    ensures { Gives (spec.plain_name tokens.old) result tokens.new }
{
    let (name, _) = tokens.name(alloc)?;
    Ok(name)
}

#[tactic(auto, unfolding(crate::specs::ReadingRows::next))]
fn next_name(alloc: Global, tokens: &mut Cursor<'_>) -> Result<Name, Fault>
    ensures { Gives (spec.next spec.plain_name tokens.old) result tokens.new }
{
    tokens.skip()?;
    plain_name(alloc, tokens)
}

/// These names, and those that follow, each after a comma.
pub fn more_names(
    alloc: Global,
    tokens: &mut Cursor<'_>,
    mut names: Items<Name>,
) -> Result<Items<Name>, Fault>
    ensures { Gives (spec.more spec.plain_name names tokens.old) result tokens.new }
{
    for _turn in 0..tokens.turns() {
        let has_next = same_class(tokens.peek(), TokenClass::Comma);
        if !has_next {
            return Ok(names);
        }
        let next = next_name(alloc, tokens)?;
        names.push(next)?;
    }
    Err(Fault::Syntax)
}

/// Names with commas between them.
#[tactic(auto, unfolding(crate::specs::ReadingRows::commas))]
pub fn names(alloc: Global, tokens: &mut Cursor<'_>) -> Result<Items<Name>, Fault>
    ensures { Gives (spec.names tokens.old) result tokens.new }
{
    let first = plain_name(alloc, tokens)?;
    let first = single(alloc, first)?;
    more_names(alloc, tokens, first)
}
