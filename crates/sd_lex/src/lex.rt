ghost use Rattle.std.specs.Prelude.{◌≡◌, ◌≢◌, ◌<◌, ◌≤◌, ℕ, length, IfOk, IfErr, MatchOption, IsTrue, Bool, map, Some, None, take, drop, slice_index, ◌+◌, ◌^◌, true, false, ◌∷◌};
ghost use Rattle.sd_lex.specs.Pieces.{BeginsWith, BeginsAs, Each};
ghost use Rattle.sd_lex.specs.Pieces as spec;
ghost use Rattle.sd_lex.specs.Tokens.{Tokens, Refused};
ghost use Rattle.sd_lex.specs.declared.token.LexError.TheVariants as error;
ghost use Rattle.std.specs.List.{prefix_len};
ghost use Rattle.std.specs.Char.{is_ascii_digit};

use crate::token::{LexError, MARKS, Piece, RESERVED, Token, TokenKind, UNSUPPORTED};
use sd_base::{Name, NoMemory, Place};
use std::alloc::Global;

fn is_blank(b: u8) -> bool
    ensures { result ≡ spec.is_blank b }
{
    b == b' ' || b == b'\t' || b == b'\r' || b == b'\n'
}

fn is_letter(b: u8) -> bool
    ensures { result ≡ spec.is_letter b }
{
    b.is_ascii_alphabetic()
        || b == b'_'
        || b == b'.'
        || b == b'$'
        || b == b'#'
        || b == b'\''
        || b == b'~'
        || b == b'^'
        || b == b'?'
        || b == b'`'
}

/// How many bytes at the front are of a name.
fn name_len(text: &[u8]) -> usize
    ensures value { result ≡ prefix_len spec.is_name_byte text.now }
    ensures within { result ≤ length text.now }
{
    text.iter()
        .take_while(|b| is_letter(**b) || b.is_ascii_digit())
        .count()
}

fn digits_len(text: &[u8]) -> usize
    ensures value { result ≡ prefix_len is_ascii_digit text.now }
    ensures within { result ≤ length text.now }
{
    text.iter().take_while(|b| b.is_ascii_digit()).count()
}

fn line_len(text: &[u8]) -> usize
    ensures value { result ≡ prefix_len spec.is_in_line text.now }
    ensures within { result ≤ length text.now }
{
    text.iter().take_while(|b| **b != b'\n').count()
}

fn string_len(text: &[u8]) -> usize
    ensures value { result ≡ prefix_len spec.is_in_string text.now }
    ensures within { result ≤ length text.now }
{
    text.iter()
        .take_while(|b| **b != b'"' && **b != b'\n')
        .count()
}

fn is_among(mut words: &[&[u8]], text: &[u8]) -> bool
    ensures { result ≡ spec.is_among (map (λ w. w.now) words.entry.now) text.now }
{
    while let [word, rest @ ..] = words {
        if text == *word {
            return true;
        }
        words = rest;
    }
    false
}

fn word(alloc: Global, text: &[u8]) -> Result<Piece, NoMemory>
    ensures { IfOk result (λ p. p ≡ spec.word text.now) }
{
    let name = Name::new(alloc, text)?;
    Ok(if is_among(&UNSUPPORTED, text) {
        Piece::Unsupported(name)
    } else if is_among(&RESERVED, text) {
        Piece::Whole(TokenKind::Word(name))
    } else {
        Piece::Whole(TokenKind::Ident(name))
    })
}

fn number(text: &[u8]) -> Piece
    requires { Each is_ascii_digit text.now }
    ensures { result ≡ spec.number text.now }
{
    let mut value: u64 = 0;
    for b in text {
        let digit = u64::from(*b - b'0');
        if value > (u64::MAX - digit) / 10 {
            return Piece::Wide;
        }
        value = 10 * value + digit;
    }
    Piece::Whole(TokenKind::Number(value))
}

/// Where the comment ends that has begun.
fn comment_len(text: &[u8]) -> Option<usize>
    ensures { MatchOption result (spec.after_comment 0 text.now ≡ None)
        (λ n. (n ≤ length text.now) × (spec.after_comment 0 text.now ≡ Some (drop n text.now))) }
{
    let mut depth: usize = 0;
    let mut at = 0;
    while at + 1 < text.len() {
        let (a, b) = (text[at], text[at + 1]);
        if a == b'*' && b == b'/' {
            at += 2;
            if depth == 0 {
                return Some(at);
            }
            depth -= 1;
        } else if a == b'/' && b == b'*' {
            at += 2;
            depth += 1;
        } else {
            at += 1;
        }
    }
    None
}

fn word_at(alloc: Global, text: &[u8]) -> Result<(Piece, usize), NoMemory>
    requires { BeginsAs spec.Letter text.now }
    ensures { IfOk result (λ r. BeginsWith text.now r.0 r.1) }
{
    let len = 1 + name_len(&text[1..]);
    Ok((word(alloc, &text[..len])?, len))
}

fn number_at(text: &[u8]) -> (Piece, usize)
    requires { BeginsAs spec.Digit text.now }
    ensures { BeginsWith text.now result.0 result.1 }
{
    let len = 1 + digits_len(&text[1..]);
    (number(&text[..len]), len)
}

/// The byte at a place, and 0 past the end.
fn byte(text: &[u8], at: usize) -> u8
    ensures { result ≡ slice_index text.now at }
{
    if at < text.len() { text[at] } else { 0 }
}

fn string_at(alloc: Global, text: &[u8]) -> Result<(Piece, usize), NoMemory>
    requires { BeginsAs spec.Quote text.now }
    ensures { IfOk result (λ r. BeginsWith text.now r.0 r.1) }
{
    let len = string_len(&text[1..]);
    if byte(text, 1 + len) != b'"' {
        return Ok((Piece::OpenString, 1 + len));
    }
    let body = Name::new(alloc, &text[1..1 + len])?;
    Ok((Piece::Whole(TokenKind::Text(body)), 2 + len))
}

fn slash_at(alloc: Global, text: &[u8]) -> Result<(Piece, usize), NoMemory>
    requires { BeginsAs spec.Slash text.now }
    ensures { IfOk result (λ r. BeginsWith text.now r.0 r.1) }
{
    let second = byte(text, 1);
    if second == b'/' {
        return Ok((Piece::Gap, 2 + line_len(&text[2..])));
    }
    if second == b'*' {
        let found = comment_len(&text[2..]);
        return match found {
            Some(len) => Ok((Piece::Gap, 2 + len)),
            None => Ok((Piece::OpenComment, text.len())),
        };
    }
    let name = Name::new(alloc, &text[..1])?;
    Ok((Piece::Unsupported(name), 1))
}

/// The first entry of the table with which the text begins.
fn first_mark<'a>(mut table: &'a [(&'a [u8], bool)], text: &[u8]) -> Option<(&'a [u8], bool)>
    ensures { MatchOption result (spec.first_mark (map (λ m. (m.0.now, m.1)) table.entry.now) text.now ≡ None)
        (λ m. spec.first_mark (map (λ m. (m.0.now, m.1)) table.entry.now) text.now ≡ Some (m.0.now, m.1)) }
{
    while let [entry, rest @ ..] = table {
        if text.starts_with(entry.0) {
            return Some(*entry);
        }
        table = rest;
    }
    None
}

fn mark_at(alloc: Global, text: &[u8]) -> Result<(Piece, usize), NoMemory>
    requires { BeginsAs spec.Other text.now }
    ensures { IfOk result (λ r. BeginsWith text.now r.0 r.1) }
{
    let found = first_mark(&MARKS, text);
    match found {
        Some((mark, supported)) => {
            let name = Name::new(alloc, mark)?;
            if supported {
                Ok((Piece::Whole(TokenKind::Symbol(name)), mark.len()))
            } else {
                Ok((Piece::Unsupported(name), mark.len()))
            }
        }
        None => Ok((Piece::BadByte, 1)),
    }
}

/// The longest piece at the front of the text.
fn piece_at(alloc: Global, text: &[u8]) -> Result<(Piece, usize), NoMemory>
    requires { 0 < length text.now }
    ensures { IfOk result (λ r. BeginsWith text.now r.0 r.1) }
{
    let first = text[0];
    if is_blank(first) {
        Ok((Piece::Gap, 1))
    } else if is_letter(first) {
        word_at(alloc, text)
    } else if first.is_ascii_digit() {
        Ok(number_at(text))
    } else if first == b'"' {
        string_at(alloc, text)
    } else if first == b'/' {
        slash_at(alloc, text)
    } else {
        mark_at(alloc, text)
    }
}

/// The tokens of the text, with their places, or its first refusal.
pub fn tokens(alloc: Global, bytes: &[u8]) -> Result<Vec<Token>, LexError>
    ensures found { IfOk result (λ found. Tokens 0 bytes.now found.items) }
    ensures refused { IfErr result (λ e. e ≢ error.NoMemory → Refused 0 bytes.now e) }
{
    let mut found = Vec::new(alloc);
    let mut at = 0;
    while at < bytes.len() {
        let (piece, len) = piece_at(alloc, &bytes[at..])?;
        let place = Place { byte: at as u64 };
        match piece {
            Piece::Gap => {}
            Piece::Whole(kind) => found.push(Token { at: place, kind })?,
            Piece::Wide => return Err(LexError::Wide(place)),
            Piece::Unsupported(name) => return Err(LexError::Unsupported(place, name)),
            Piece::BadByte => return Err(LexError::BadByte(place)),
            Piece::OpenComment => return Err(LexError::OpenComment(place)),
            Piece::OpenString => return Err(LexError::OpenString(place)),
        }
        at += len;
    }
    Ok(found)
}
