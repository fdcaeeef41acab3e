//! The tokens of a text. The tokens, the reserved words and the symbols are after Boogie 2 (Leino 2008).
#![tactic(auto)]

pub mod laws;
mod lex;
mod token;

pub use lex::tokens;
pub use token::{LexError, Token, TokenKind};
