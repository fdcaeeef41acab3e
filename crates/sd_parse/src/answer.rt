//! From the bytes of a text to its program, or to the place where it is refused and why.
ghost use Rattle.std.specs.Prelude.{◌≡◌, ◌≤◌, length, Ok, Err};
ghost use Rattle.sd_parse.specs.Answer as spec;
ghost use Rattle.sd_parse.specs.Refusals as refusals;
ghost use Rattle.sd_parse.specs.Answer.{IsReading, IsParsing, Rising};
ghost use Rattle.sd_lex.specs.Tokens as lex;

use crate::class::{TokenClass, same_class, token_class};
use crate::count::procedures;
use crate::cursor::{Cursor, Fault};
use crate::program::program;
use sd_ast::Program;
use sd_base::Place;
use sd_base::limits::{HEIGHT, PROCEDURES, TEXT_BYTES};
use sd_lex::{LexError, Token, tokens};
use std::alloc::Global;
use thiserror::Error;

/// Why a text gives no program.
#[derive(Debug, Drop, Error)]
pub enum ReadError {
    #[error("out of memory")]
    NoMemory,
    /// Over 16777216 bytes.
    #[error("the text is too long")]
    TooLong,
    /// A piece of the text is no token.
    #[error("the text has a piece that is no token")]
    Lex(LexError),
    /// A `*` as the guard of an `if` or of a `while`.
    #[error("a guard is a star")]
    Star(Place),
    /// The first token with which the text so far begins no program; or the end of the text, where it begins one and is
    /// none, so that a token is missing at the end, as the last `}`.
    #[error("a token goes on with no program")]
    Syntax(Place),
    /// The first token with which it begins a program, but none within height 200.
    #[error("a phrase is too high")]
    Deep(Place),
    /// Over 4096 procedures and implementations.
    #[error("the text has too many procedures")]
    TooMany,
}

/// The words before a guard.
fn guards(class: TokenClass) -> bool
    ensures { result ≡ spec.guards class }
{
    match class {
        TokenClass::If | TokenClass::While => true,
        _ => false,
    }
}

/// Whether the tokens begin with the word before a guard, a parenthesis and a star.
fn guarded(tokens: &[Token]) -> bool
    ensures { result ≡ spec.guarded tokens.now }
{
    match tokens {
        [word, open, star, ..] => {
            guards(token_class(word))
                && same_class(token_class(open), TokenClass::Open)
                && same_class(token_class(star), TokenClass::Star)
        }
        _ => false,
    }
}

/// Whether this token is a star as a guard, by those before it.
#[tactic(auto, unfolding(crate::specs::Answer::star_at))]
fn star_at(tokens: &[Token], at: usize) -> bool
    requires { at ≤ length tokens.now }
    ensures { result ≡ spec.star_at tokens.now at }
{
    if at < 2 {
        return false;
    }
    guarded(&tokens[at - 2..])
}

/// The place of the first token; or of the end of the text, where none is left, as where the last `}` is missing at the
/// end.
fn place_of(tokens: &[Token], end: Place) -> Place
    ensures { result ≡ refusals.place_of end tokens.now }
{
    match tokens {
        [] => end,
        [token, ..] => token.at,
    }
}

/// The program that the tokens of a text spell, which ends at this place.
fn parsed(alloc: Global, tokens: &[Token], end: Place) -> Result<Program, ReadError>
    requires { Rising 0 tokens.now end.byte }
    ensures { IsParsing tokens.now end result }
{
    let mut cursor = Cursor::new(tokens);
    match program(alloc, &mut cursor, HEIGHT as u32) {
        Ok(decls) => {
            if procedures(decls.as_slice()) > PROCEDURES {
                return Err(ReadError::TooMany);
            }
            Ok(Program { decls })
        }
        Err(Fault::NoMemory) => Err(ReadError::NoMemory),
        // The cursor stands before the token that is refused, or past the last one where a token is missing at the end.
        Err(Fault::Syntax) => {
            let at = tokens.len() - cursor.left();
            let place = place_of(&tokens[at..], end);
            if star_at(tokens, at) {
                Err(ReadError::Star(place))
            } else {
                Err(ReadError::Syntax(place))
            }
        }
        Err(Fault::Deep) => {
            let at = tokens.len() - cursor.left();
            Err(ReadError::Deep(place_of(&tokens[at..], end)))
        }
    }
}

/// The program of the text, or its one refusal.
pub fn read_program(alloc: Global, bytes: &[u8]) -> Result<Program, ReadError>
    ensures { IsReading bytes.now result }
{
    if bytes.len() > TEXT_BYTES {
        return Err(ReadError::TooLong);
    }
    let end = Place {
        byte: bytes.len() as u64,
    };
    match tokens(alloc, bytes) {
        Err(LexError::NoMemory) => Err(ReadError::NoMemory),
        Err(error) => Err(ReadError::Lex(error)),
        Ok(tokens) => parsed(alloc, tokens.as_slice(), end),
    }
}
