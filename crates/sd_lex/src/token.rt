use sd_base::{Name, NoMemory, Place};
use std::alloc::AllocFailed;
use thiserror::Error;

/// What a token is. The name is its text; that of a string is what stands between the quotes.
#[derive(Debug, Drop)]
pub enum TokenKind {
    /// A reserved word.
    Word(Name),
    Ident(Name),
    Number(u64),
    Text(Name),
    Symbol(Name),
}

/// A token with the place of its first byte.
#[derive(Debug, Drop)]
pub struct Token {
    pub at: Place,
    pub kind: TokenKind,
}

/// What stands at a place of a text.
#[derive(Debug, Drop)]
pub enum Piece {
    /// A blank or a comment.
    Gap,
    Whole(TokenKind),
    Wide,
    Unsupported(Name),
    BadByte,
    OpenComment,
    OpenString,
}

/// Why a text has no tokens. The place is that of the first piece of the text that is refused.
#[derive(Debug, Drop, Error)]
pub enum LexError {
    #[error("out of memory")]
    NoMemory,
    /// A number that is over 18446744073709551615.
    #[error("a number is too wide")]
    Wide(Place),
    /// A word or a symbol that is kept for what the language leaves out, as it is written.
    #[error("a word or symbol is not supported")]
    Unsupported(Place, Name),
    /// A byte that begins no token.
    #[error("a byte begins no token")]
    BadByte(Place),
    /// A comment without its end, at the place of the outermost.
    #[error("a comment has no end")]
    OpenComment(Place),
    /// A string that doesn't end on its line.
    #[error("a string has no end")]
    OpenString(Place),
}

impl<T: Drop> From<AllocFailed<T>> for LexError {
    ghost use Rattle.std.specs.Prelude.{◌≡◌};
    ghost use Rattle.sd_lex.specs.declared.token.LexError.TheVariants.{NoMemory};

    ghost from_gives = { λ _ e. e ≡ NoMemory };

    fn from(_failed: AllocFailed<T>) -> LexError {
        LexError::NoMemory
    }
}

impl From<NoMemory> for LexError {
    ghost use Rattle.std.specs.Prelude.{◌≡◌};
    ghost use Rattle.sd_lex.specs.declared.token.LexError.TheVariants.{NoMemory};

    ghost from_gives = { λ _ e. e ≡ NoMemory };

    fn from(_: NoMemory) -> LexError {
        LexError::NoMemory
    }
}

/// The words that are no names, as the grammar has them.
pub const RESERVED: [&[u8]; 27] = [
    b"type",
    b"const",
    b"unique",
    b"function",
    b"returns",
    b"axiom",
    b"var",
    b"procedure",
    b"implementation",
    b"modifies",
    b"requires",
    b"ensures",
    b"free",
    b"invariant",
    b"assert",
    b"assume",
    b"call",
    b"if",
    b"else",
    b"while",
    b"break",
    b"return",
    b"old",
    b"true",
    b"false",
    b"int",
    b"bool",
];

/// The words that are no names, as they are kept for what the language leaves out.
pub const UNSUPPORTED: [&[u8]; 11] = [
    b"havoc",
    b"goto",
    b"where",
    b"forall",
    b"exists",
    b"lambda",
    b"real",
    b"div",
    b"mod",
    b"extends",
    b"complete",
];

/// The symbols, longest first, and whether the grammar has them.
pub const MARKS: [(&[u8], bool); 31] = [
    (b"<==>", true),
    (b"==>", true),
    (b"<==", true),
    (b"{:", true),
    (b":=", true),
    (b"==", true),
    (b"!=", true),
    (b"<=", true),
    (b">=", true),
    (b"&&", true),
    (b"||", true),
    (b"++", false),
    (b"<:", false),
    (b"(", true),
    (b")", true),
    (b"[", true),
    (b"]", true),
    (b"{", true),
    (b"}", true),
    (b":", true),
    (b",", true),
    (b";", true),
    (b"=", true),
    (b"<", true),
    (b">", true),
    (b"!", true),
    (b"+", true),
    (b"-", true),
    (b"*", true),
    (b"/", false),
    (b"%", false),
];
