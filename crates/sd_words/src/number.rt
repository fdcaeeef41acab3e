//! Numbers among the words.
ghost use Rattle.std.specs.Prelude.{◌≡◌, IfSome};
ghost use Rattle.std.specs.Int.{IsInRange};
ghost use Rattle.std.specs.Char.{is_ascii_digit};
ghost use Rattle.std.specs.List.{list_all};
ghost use Rattle.sd_words.specs.Numbers.{is_numeral, number_to};

fn are_digits(text: &[u8]) -> bool
    ensures { result ≡ list_all is_ascii_digit text.now }
{
    text.iter().all(|b| b.is_ascii_digit())
}

/// Whether a word is made of decimal digits, and the first isn't 0.
fn is_numeral(word: &str) -> bool
    ensures { result ≡ is_numeral word.now }
{
    let text = word.as_bytes();
    match text {
        [first, ..] => *first != b'0' && are_digits(text),
        _ => false,
    }
}

/// The number that a word spells, from 1 to `most`.
pub(crate) fn number_to(most: u32, word: &str) -> Option<u32>
    ensures number { result ≡ number_to most word.now }
    ensures range { IfSome result (IsInRange 1 most) }
{
    if !is_numeral(word) {
        return None;
    }
    let Ok(number) = word.parse::<u32>() else {
        return None;
    };
    if number > most {
        return None;
    }
    Some(number)
}
