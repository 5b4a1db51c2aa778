//! The request of a line.
ghost use Rattle.std.specs.Prelude.{◌≡◌, ◌∷◌, [], ◌<◌, ◌^◌, true, false, MatchOption, option_map};
ghost use Rattle.std.specs.Str.Parse.{digits_value};
ghost use Rattle.std.specs.List.{list_all};
ghost use Rattle.std.specs.Char.{is_ascii_alphanumeric};
ghost use Rattle.range_map_cli.specs.Commands.{command_of_request, command_of, command_of_words, written_number};
ghost use Rattle.range_map_cli.specs.Commands.{is_word, is_digits};

use crate::split::split_once;

/// The request of a valid line.
#[derive(Clone, Copy, Debug)]
pub enum Request<'a> {
    Blank,
    Paint(i64, i64, &'a str),
    Fill(i64, i64, &'a str),
    Insert(i64, &'a str),
    Remove(i64),
    Get(i64),
    At(i64),
    Len,
    Entries,
}

/// The number of one to nineteen digits.
fn digits(text: &[u8]) -> Option<u64>
    ensures { MatchOption result (is_digits text.now ≡ false) (λ n. (is_digits text.now ≡ true)
        × (n ≡ digits_value 10 text.now) × (n < 10 ^ 19)) }
{
    if text.is_empty() || 19 < text.len() {
        return None;
    }
    let mut value: u64 = 0;
    for byte in text {
        if !byte.is_ascii_digit() {
            return None;
        }
        value = value * 10 + u64::from(*byte - b'0');
    }
    Some(value)
}

/// The number of digits, after a minus if it is negative.
fn number(text: &[u8]) -> Option<i64>
    ensures { result ≡ written_number text.now }
{
    match text {
        [] => None,
        [b'-', rest @ ..] => i64::try_from(-i128::from(digits(rest)?)).ok(),
        _ => i64::try_from(digits(text)?).ok(),
    }
}

/// Whether each byte is a letter or a digit.
#[tactic(auto, using(std::proofs::lemmas::List::Folds::list_all_more, std::proofs::lemmas::List::Folds::list_all_at))]
fn is_alphanumeric(text: &[u8]) -> bool
    ensures { result ≡ list_all is_ascii_alphanumeric text.now }
{
    for byte in text {
        if !byte.is_ascii_alphanumeric() {
            return false;
        }
    }
    true
}

/// The text, if it is one to thirty-two letters and digits.
fn word(text: &[u8]) -> Option<&str>
    ensures { MatchOption result (is_word text.now ≡ false) (λ word. (is_word text.now ≡ true)
        × (word.now ≡ text.now)) }
{
    if text.is_empty() || 32 < text.len() || !is_alphanumeric(text) {
        return None;
    }
    match str::from_utf8(text) {
        Ok(word) => Some(word),
        Err(_) => None,
    }
}

/// The request of a line of one word.
fn read_one(name: &[u8]) -> Option<Request<'static>>
    ensures { option_map command_of_request result ≡ command_of_words (name.now ∷ []) }
{
    if name == b"len".as_slice() {
        Some(Request::Len)
    } else if name == b"list".as_slice() {
        Some(Request::Entries)
    } else {
        None
    }
}

/// The request of a line of two words.
fn read_two(name: &[u8], key: &[u8]) -> Option<Request<'static>>
    ensures { option_map command_of_request result ≡ command_of_words (name.now ∷ key.now ∷ []) }
{
    if name == b"get".as_slice() {
        Some(Request::Get(number(key)?))
    } else if name == b"remove".as_slice() {
        Some(Request::Remove(number(key)?))
    } else if name == b"at".as_slice() {
        Some(Request::At(number(key)?))
    } else {
        None
    }
}

/// The request of a line of three words.
fn read_three<'a>(name: &[u8], key: &[u8], value: &'a [u8]) -> Option<Request<'a>>
    ensures { option_map command_of_request result ≡ command_of_words (name.now ∷ key.now ∷ value.now ∷ []) }
{
    if name == b"insert".as_slice() {
        let key = number(key)?;
        Some(Request::Insert(key, word(value)?))
    } else {
        None
    }
}

/// The request of a line of four words.
fn read_four<'a>(name: &[u8], lo: &[u8], hi: &[u8], value: &'a [u8]) -> Option<Request<'a>>
    ensures { option_map command_of_request result
        ≡ command_of_words (name.now ∷ lo.now ∷ hi.now ∷ value.now ∷ []) }
{
    if name == b"paint".as_slice() {
        let lo = number(lo)?;
        let hi = number(hi)?;
        Some(Request::Paint(lo, hi, word(value)?))
    } else if name == b"fill".as_slice() {
        let lo = number(lo)?;
        let hi = number(hi)?;
        Some(Request::Fill(lo, hi, word(value)?))
    } else {
        None
    }
}

/// The request of a line, or `None` if it is invalid.
pub fn read(line: &[u8]) -> Option<Request<'_>>
    ensures { option_map command_of_request result ≡ command_of line.now }
{
    if line.is_empty() {
        return Some(Request::Blank);
    }
    let Some((name, rest)) = split_once(line, b' ') else {
        return read_one(line);
    };
    let Some((first, rest)) = split_once(rest, b' ') else {
        return read_two(name, rest);
    };
    let Some((second, third)) = split_once(rest, b' ') else {
        return read_three(name, first, rest);
    };
    match split_once(third, b' ') {
        Some(_) => None,
        None => read_four(name, first, second, third),
    }
}
