//! The fields of a line.
ghost use Rattle.std.specs.Prelude.{◌≡◌, ◌≢◌, ◌<◌, ◌^◌, ◌+◌, ◌++◌, ◌∷◌, ℕ, List, false, length, take, drop};
ghost use Rattle.std.specs.Prelude.{MatchOption};
ghost use Rattle.std.specs.Option.{option_copied};
ghost use Rattle.std.specs.Fmt.{decimal};
ghost use Rattle.hex.specs.Hex.{encode_lower};
ghost use Rattle.std.specs.Char.{is_ascii_digit};
ghost use Rattle.std.specs.List.{list_all};
ghost use Rattle.sd_cert.specs.Fields.{IsReadAs, after_front, has_leading_zero, has_byte, IsDigest};

/// What follows this front of a text, if the text has it.
pub(crate) fn after<'a>(text: &'a [u8], front: &[u8]) -> Option<&'a [u8]>
    ensures { option_copied result ≡ after_front front.now text.now }
{
    text.strip_prefix(front)
}

/// What stands before this end of a text, if the text has it.
pub(crate) fn before<'a>(text: &'a [u8], end: &[u8]) -> Option<&'a [u8]>
    ensures { MatchOption result ((front : List ℕ) → text.now ≢ front ++ end.now)
        (λ front. text.now ≡ front.now ++ end.now) }
{
    text.strip_suffix(end)
}

/// The place of the first such byte.
pub(crate) fn place_of(byte: u8, text: &[u8]) -> Option<usize>
    ensures { MatchOption result (has_byte byte text.now ≡ false)
        (λ at. (at < length text.now) × (text.now ≡ take at text.now ++ byte ∷ drop (at + 1) text.now)
        × (has_byte byte (take at text.now) ≡ false)) }
{
    for (i, other) in text.iter().enumerate() {
        if *other == byte {
            return Some(i);
        }
    }
    None
}

fn are_digits(text: &[u8]) -> bool
    ensures { result ≡ list_all is_ascii_digit text.now }
{
    text.iter().all(|b| b.is_ascii_digit())
}

fn has_leading_zero(text: &[u8]) -> bool
    ensures { result ≡ has_leading_zero text.now }
{
    match text {
        [first, _, ..] => *first == b'0',
        _ => false,
    }
}

/// The number that a text spells in decimal digits without a leading zero, if it is less than 2^64.
pub(crate) fn read_u64(text: &[u8]) -> Option<u64>
    ensures { IsReadAs decimal (λ n. n < 2 ^ 64) text.now result }
{
    if has_leading_zero(text) {
        return None;
    }
    if !are_digits(text) {
        return None;
    }
    match str::from_utf8(text) {
        Ok(digits) => digits.parse::<u64>().ok(),
        Err(_) => None,
    }
}

/// The number that a text spells in decimal digits without a leading zero, if it is less than 2^32.
pub(crate) fn read_u32(text: &[u8]) -> Option<u32>
    ensures { IsReadAs decimal (λ n. n < 2 ^ 32) text.now result }
{
    let number = read_u64(text)?;
    u32::try_from(number).ok()
}

/// The digest that a text spells in lower-case hexadecimal digits.
pub(crate) fn read_digest(text: &[u8]) -> Option<[u8; 32]>
    ensures { IsReadAs encode_lower IsDigest text.now result }
{
    let mut digest = [0; 32];
    if hex::decode_to_slice(text, &mut digest).is_err() {
        return None;
    }
    let mut spelling = [0; 64];
    if hex::encode_to_slice(digest.as_slice(), &mut spelling).is_err() {
        return None;
    }
    if text == spelling.as_slice() {
        Some(digest)
    } else {
        None
    }
}
