//! What a token is to the grammar.
ghost use Rattle.std.specs.Prelude.{◌≡◌, map};
ghost use Rattle.sd_parse.specs.TokenClasses as spec;

use sd_base::Name;
use sd_lex::{Token, TokenKind};

/// A word, a symbol, or a kind of token.
#[derive(Clone, Copy, Debug, PartialEq, Eq)]
pub enum TokenClass {
    Name,
    Number,
    True,
    False,
    Not,
    Minus,
    Open,
    Close,
    Comma,
    Star,
    Plus,
    Equal,
    Unequal,
    Less,
    AtMost,
    Greater,
    AtLeast,
    And,
    Or,
    Implies,
    Explies,
    Iff,
    Assert,
    Becomes,
    If,
    Else,
    Return,
    Procedure,
    Var,
    Bool,
    OpenBrace,
    CloseBrace,
    Colon,
    Semi,
    OpenBracket,
    CloseBracket,
    /// `{:`, which begins an attribute.
    OpenAttribute,
    /// `=`, which the grammar has nowhere.
    Same,
    /// A text between quotes.
    Text,
    Type,
    Const,
    Unique,
    Function,
    Returns,
    Axiom,
    Implementation,
    Modifies,
    Requires,
    Ensures,
    Free,
    Invariant,
    Assume,
    Call,
    While,
    Break,
    Old,
    Int,
    /// Any other token, or the end of the text.
    Other,
}

/// The words that the grammar has.
pub const WORDS: [(&[u8], TokenClass); 27] = [
    (b"true", TokenClass::True),
    (b"false", TokenClass::False),
    (b"assert", TokenClass::Assert),
    (b"if", TokenClass::If),
    (b"else", TokenClass::Else),
    (b"return", TokenClass::Return),
    (b"procedure", TokenClass::Procedure),
    (b"var", TokenClass::Var),
    (b"bool", TokenClass::Bool),
    (b"type", TokenClass::Type),
    (b"const", TokenClass::Const),
    (b"unique", TokenClass::Unique),
    (b"function", TokenClass::Function),
    (b"returns", TokenClass::Returns),
    (b"axiom", TokenClass::Axiom),
    (b"implementation", TokenClass::Implementation),
    (b"modifies", TokenClass::Modifies),
    (b"requires", TokenClass::Requires),
    (b"ensures", TokenClass::Ensures),
    (b"free", TokenClass::Free),
    (b"invariant", TokenClass::Invariant),
    (b"assume", TokenClass::Assume),
    (b"call", TokenClass::Call),
    (b"while", TokenClass::While),
    (b"break", TokenClass::Break),
    (b"old", TokenClass::Old),
    (b"int", TokenClass::Int),
];

/// The symbols that the grammar has.
pub const SYMBOLS: [(&[u8], TokenClass); 27] = [
    (b";", TokenClass::Semi),
    (b":=", TokenClass::Becomes),
    (b"(", TokenClass::Open),
    (b")", TokenClass::Close),
    (b"&&", TokenClass::And),
    (b"||", TokenClass::Or),
    (b"!", TokenClass::Not),
    (b"==>", TokenClass::Implies),
    (b"{", TokenClass::OpenBrace),
    (b"}", TokenClass::CloseBrace),
    (b",", TokenClass::Comma),
    (b":", TokenClass::Colon),
    (b"<==>", TokenClass::Iff),
    (b"<==", TokenClass::Explies),
    (b"==", TokenClass::Equal),
    (b"!=", TokenClass::Unequal),
    (b"<", TokenClass::Less),
    (b"<=", TokenClass::AtMost),
    (b">", TokenClass::Greater),
    (b">=", TokenClass::AtLeast),
    (b"+", TokenClass::Plus),
    (b"-", TokenClass::Minus),
    (b"*", TokenClass::Star),
    (b"[", TokenClass::OpenBracket),
    (b"]", TokenClass::CloseBracket),
    (b"{:", TokenClass::OpenAttribute),
    (b"=", TokenClass::Same),
];

/// The class of the entry with this text.
fn class_in<'a>(mut table: &'a [(&'a [u8], TokenClass)], text: &Name) -> TokenClass
    ensures { result ≡ spec.class_in (map (λ m. (m.0.now, m.1)) table.entry.now) text.now }
{
    while let [entry, rest @ ..] = table {
        if text.has_bytes(entry.0) {
            return entry.1;
        }
        table = rest;
    }
    TokenClass::Other
}

/// The class of a token.
#[tactic(auto, unfolding(crate::specs::TokenClasses::class_of_kind))]
pub fn token_class(token: &Token) -> TokenClass
    ensures { result ≡ spec.class token.now }
{
    match &token.kind {
        TokenKind::Word(word) => class_in(&WORDS, word),
        TokenKind::Symbol(symbol) => class_in(&SYMBOLS, symbol),
        TokenKind::Ident(_) => TokenClass::Name,
        TokenKind::Number(_) => TokenClass::Number,
        TokenKind::Text(_) => TokenClass::Text,
    }
}

/// Whether two classes are one.
#[tactic(auto, unfolding(crate::specs::TokenClasses::same_class))]
pub fn same_class(a: TokenClass, b: TokenClass) -> bool
    ensures { result ≡ spec.same_class a b }
{
    a == b
}
