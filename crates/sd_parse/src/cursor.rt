//! A cursor over the tokens.
ghost use Rattle.std.specs.Prelude.{◌≡◌, length, suc};
ghost use Rattle.sd_parse.specs.Reading as spec;
ghost use Rattle.sd_parse.specs.Reading.{Gives};

use crate::class::{TokenClass, same_class, token_class};
use sd_base::{CloneOf, Name, NoMemory, Place};
use sd_lex::{Token, TokenKind};
use std::alloc::{AllocError, Global};
use std::marker::Model;

/// Why nothing is read. The cursor stands at the place.
#[derive(Clone, Copy, Debug, PartialEq, Eq)]
pub enum Fault {
    NoMemory,
    /// The next token goes on with nothing that the grammar has.
    Syntax,
    /// The next token makes a phrase too high.
    Deep,
}

impl From<NoMemory> for Fault {
    ghost use Rattle.std.specs.Prelude.{◌≡◌};
    ghost use Rattle.sd_parse.specs.declared.cursor.Fault.TheVariants.{NoMemory};

    ghost from_gives = { λ _ e. e ≡ NoMemory };

    fn from(_: NoMemory) -> Fault {
        Fault::NoMemory
    }
}

impl From<AllocError> for Fault {
    ghost use Rattle.std.specs.Prelude.{◌≡◌};
    ghost use Rattle.sd_parse.specs.declared.cursor.Fault.TheVariants.{NoMemory};

    ghost from_gives = { λ _ e. e ≡ NoMemory };

    fn from(_: AllocError) -> Fault {
        Fault::NoMemory
    }
}

/// The tokens that are still to be read.
#[derive(Drop)]
pub struct Cursor<'a> {
    rest: &'a [Token],
}

impl<'a> Model for Cursor<'a> {
    ghost use Rattle.std.specs.Prelude.{List};
    ghost use Rattle.sd_lex.specs.declared.Token.{Token};

    ghost Value = { List Token };

    ghost view = { λ c. c.rest.now };
}

impl<'a> Cursor<'a> {
    pub fn new(rest: &'a [Token]) -> Cursor<'a>
        ensures { result ≡ rest.now }
    {
        Cursor { rest }
    }

    /// How many tokens are left.
    pub fn left(&self) -> usize
        ensures { result ≡ length self.now }
    {
        self.rest.len()
    }

    /// One more than the tokens that are left.
    pub fn turns(&self) -> usize
        ensures { result ≡ suc (length self.now) }
    {
        self.rest.len() + 1
    }

    /// The class of the next token, and `Other` at the end.
    pub fn peek(&self) -> TokenClass
        ensures { result ≡ spec.class_of (spec.ahead self.now) }
    {
        match self.rest {
            [] => TokenClass::Other,
            [token, ..] => token_class(token),
        }
    }

    /// Reads any token, and gives its place.
    pub fn skip(&mut self) -> Result<Place, Fault>
        ensures { Gives (spec.skip self.old) result self.new }
    {
        match self.rest {
            [] => Err(Fault::Syntax),
            [token, rest @ ..] => {
                let at = token.at;
                self.rest = rest;
                Ok(at)
            }
        }
    }

    /// Reads a token of this class, and gives its place. Where it is missing at the end of the text, the cursor stays
    /// at the end.
    #[tactic(auto, unfolding(crate::specs::Reading::want))]
    pub fn want(&mut self, wanted: TokenClass) -> Result<Place, Fault>
        ensures { Gives (spec.want wanted self.old) result self.new }
    {
        if same_class(self.peek(), wanted) {
            self.skip()
        } else {
            Err(Fault::Syntax)
        }
    }

    /// Reads an identifier, and gives it with its place.
    #[tactic(auto, unfolding(crate::specs::Reading::name))]
    pub fn name(&mut self, alloc: Global) -> Result<(Name, Place), Fault>
        ensures { Gives (spec.name self.old) result self.new }
    {
        match self.rest {
            [] => Err(Fault::Syntax),
            [token, rest @ ..] => match &token.kind {
                TokenKind::Ident(name) => {
                    let name = name.clone_of(alloc)?;
                    let at = token.at;
                    self.rest = rest;
                    Ok((name, at))
                }
                _ => Err(Fault::Syntax),
            },
        }
    }

    /// Reads a number, and gives it with its place.
    #[tactic(auto, unfolding(crate::specs::Reading::number))]
    pub fn number(&mut self) -> Result<(u64, Place), Fault>
        ensures { Gives (spec.number self.old) result self.new }
    {
        match self.rest {
            [] => Err(Fault::Syntax),
            [token, rest @ ..] => match token.kind {
                TokenKind::Number(number) => {
                    let at = token.at;
                    self.rest = rest;
                    Ok((number, at))
                }
                _ => Err(Fault::Syntax),
            },
        }
    }
}
