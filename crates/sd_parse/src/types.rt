//! The rules for types. They take the reader of the types below as a parameter, so that each is proved by itself.
ghost use Rattle.std.specs.Prelude.{◌≡◌, IfOk};
ghost use Rattle.sd_base.specs.declared.Sort.TheVariants.{Map as MapOf};
ghost use Rattle.sd_parse.specs.ReadingTypes as spec;
ghost use Rattle.sd_parse.specs.ReadingTypes.{NestsTypes};
ghost use Rattle.sd_parse.specs.Reading.{Gives};

use crate::class::TokenClass;
use crate::cursor::{Cursor, Fault};
use sd_base::Sort;
use sqlite_items::Boxed;
use std::alloc::{AllocError, Global};

fn begins_type(class: TokenClass) -> bool
    ensures { result ≡ spec.begins_type class }
{
    match class {
        TokenClass::Int | TokenClass::Bool | TokenClass::Name | TokenClass::OpenBracket => true,
        _ => false,
    }
}

/// The type of the maps with these indices and values.
fn map(alloc: Global, index: Sort, value: Sort) -> Result<Sort, AllocError>
    ensures { IfOk result (λ made. made ≡ MapOf index value) }
{
    let index = Boxed::new(alloc, index)?;
    let value = Boxed::new(alloc, value)?;
    Ok(Sort::Map(index, value))
}

#[derive(Clone, Copy)]
pub struct Nested<F> {
    alloc: Global,
    /// How high the types below may be.
    depth: u32,
    inner: F,
}

impl<F: Fn(Global, &mut Cursor<'_>, u32) -> Result<Sort, Fault>> Nested<F> {
    fn inner(&self, tokens: &mut Cursor<'_>) -> Result<Sort, Fault>
        requires { NestsTypes self.now.depth (F.pre self.now.inner) (F.post self.now.inner) }
        ensures { Gives (spec.type_of self.now.depth tokens.old) result tokens.new }
    {
        (self.inner)(self.alloc, tokens, self.depth)
    }

    #[tactic(auto, unfolding(crate::specs::ReadingTypes::map_type))]
    fn map(&self, tokens: &mut Cursor<'_>) -> Result<Sort, Fault>
        requires { NestsTypes self.now.depth (F.pre self.now.inner) (F.post self.now.inner) }
        ensures { Gives (spec.map_type self.now.depth (spec.type_of self.now.depth) tokens.old) result tokens.new }
    {
        if self.depth == 0 {
            return Err(Fault::Deep);
        }
        tokens.skip()?;
        let index = self.inner(tokens)?;
        tokens.want(TokenClass::CloseBracket)?;
        let value = self.inner(tokens)?;
        Ok(map(self.alloc, index, value)?)
    }

    #[tactic(auto, unfolding(crate::specs::ReadingTypes::type_layer))]
    fn layer(&self, tokens: &mut Cursor<'_>) -> Result<Sort, Fault>
        requires { NestsTypes self.now.depth (F.pre self.now.inner) (F.post self.now.inner) }
        ensures { Gives (spec.type_layer self.now.depth (spec.type_of self.now.depth) tokens.old) result tokens.new }
    {
        match tokens.peek() {
            TokenClass::Int => {
                tokens.skip()?;
                Ok(Sort::Int)
            }
            TokenClass::Bool => {
                tokens.skip()?;
                Ok(Sort::Bool)
            }
            TokenClass::Name => {
                let (name, _) = tokens.name(self.alloc)?;
                Ok(Sort::Named(name))
            }
            TokenClass::OpenBracket => self.map(tokens),
            _ => Err(Fault::Syntax),
        }
    }
}

/// No type has height 0.
#[tactic(auto, unfolding(crate::specs::ReadingTypes::type_of))]
pub fn none(tokens: &mut Cursor<'_>) -> Result<Sort, Fault>
    ensures { Gives (spec.type_of 0 tokens.old) result tokens.new }
{
    if begins_type(tokens.peek()) {
        Err(Fault::Deep)
    } else {
        Err(Fault::Syntax)
    }
}

/// The type of this height at most that the tokens begin with.
pub fn type_of(alloc: Global, tokens: &mut Cursor<'_>, depth: u32) -> Result<Sort, Fault>
    ensures { Gives (spec.type_of depth tokens.old) result tokens.new }
{
    if depth == 0 {
        return none(tokens);
    }
    Nested {
        alloc,
        depth: depth - 1,
        inner: type_of,
    }
    .layer(tokens)
}
