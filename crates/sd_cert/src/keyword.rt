//! The words that begin the lines of a certificate.
ghost use Rattle.std.specs.Prelude.{◌≡◌};
ghost use Rattle.std.specs.Option.{option_map};
ghost use Rattle.sd_cert.specs.Keywords.{front_of, keyword_in, keywords};

use crate::field::after;

/// What begins a line that has fields.
#[derive(Clone, Copy, Debug)]
pub(crate) enum Keyword {
    Version,
    Old,
    New,
    Settings,
    Pairs,
    Pair,
    Candidate,
    TermEq,
    TermLe,
    TermRead,
    TermDiff,
    Split,
    Order,
    Ite,
    Chain,
    Close,
    Rows,
    Fact,
    Back,
    Add,
    Cut,
}

const KEYWORDS: [Keyword; 21] = [
    Keyword::Version,
    Keyword::Old,
    Keyword::New,
    Keyword::Settings,
    Keyword::Pairs,
    Keyword::Pair,
    Keyword::Candidate,
    Keyword::TermEq,
    Keyword::TermLe,
    Keyword::TermRead,
    Keyword::TermDiff,
    Keyword::Split,
    Keyword::Order,
    Keyword::Ite,
    Keyword::Chain,
    Keyword::Close,
    Keyword::Rows,
    Keyword::Fact,
    Keyword::Back,
    Keyword::Add,
    Keyword::Cut,
];

/// The front of the lines with this word.
fn front(keyword: Keyword) -> &'static [u8]
    ensures { result.now ≡ front_of keyword }
{
    match keyword {
        Keyword::Version => b"symdiff-certificate ",
        Keyword::Old => b"old ",
        Keyword::New => b"new ",
        Keyword::Settings => b"settings ",
        Keyword::Pairs => b"pairs ",
        Keyword::Pair => b"pair ",
        Keyword::Candidate => b"candidate ",
        Keyword::TermEq => b"term eq ",
        Keyword::TermLe => b"term le ",
        Keyword::TermRead => b"term read ",
        Keyword::TermDiff => b"term diff ",
        Keyword::Split => b"split ",
        Keyword::Order => b"order ",
        Keyword::Ite => b"ite ",
        Keyword::Chain => b"chain ",
        Keyword::Close => b"close ",
        Keyword::Rows => b"rows ",
        Keyword::Fact => b"fact ",
        Keyword::Back => b"back ",
        Keyword::Add => b"add ",
        Keyword::Cut => b"cut ",
    }
}

/// The word that a line begins with, and its fields.
pub(crate) fn keyword_of(text: &[u8]) -> Option<(Keyword, &[u8])>
    ensures { option_map (λ found. (found.0, found.1.now)) result ≡ keyword_in keywords text.now }
{
    for keyword in &KEYWORDS {
        if let Some(fields) = after(text, front(*keyword)) {
            return Some((*keyword, fields));
        }
    }
    None
}
