//! Keys, values and ranges, as scripts write them. A word of another form is invalid.
use crate::fault::Fault;
use crate::keys::ScriptKey;
use std::alloc::Global;
use std::ops::{Bound, RangeInclusive};

/// The key of a word.
pub fn key<T: ScriptKey>(word: &str) -> Result<T, Fault> {
    match T::read(word) {
        Some(key) => Ok(key),
        None => Err(Fault::Bad),
    }
}

/// The value of a word: one or more ASCII letters and digits.
pub fn value(alloc: Global, word: &str) -> Result<String, Fault> {
    if word.is_empty() || !word.bytes().all(|byte| byte.is_ascii_alphanumeric()) {
        return Err(Fault::Bad);
    }
    Ok(String::from_str(alloc, word)?)
}

/// The range of a word `LO..=HI`.
pub fn inclusive<T: ScriptKey>(word: &str) -> Result<RangeInclusive<T>, Fault> {
    match word.split_once("..=") {
        Some((start, end)) => Ok(key(start)?..=key(end)?),
        None => Err(Fault::Bad),
    }
}

/// The bounds of a word: an optional start, which `<` after it excludes, then `..`, and an optional end, which
/// `=` before it includes. `<` before the end stands for no sign.
pub fn bounds<T: ScriptKey>(word: &str) -> Result<(Bound<T>, Bound<T>), Fault> {
    match word.split_once("..") {
        Some((start, end)) => Ok((start_bound(start)?, end_bound(end)?)),
        None => Err(Fault::Bad),
    }
}

fn start_bound<T: ScriptKey>(word: &str) -> Result<Bound<T>, Fault> {
    if word.is_empty() {
        return Ok(Bound::Unbounded);
    }
    match word.strip_suffix('<') {
        Some(word) => Ok(Bound::Excluded(key(word)?)),
        None => Ok(Bound::Included(key(word)?)),
    }
}

fn end_bound<T: ScriptKey>(word: &str) -> Result<Bound<T>, Fault> {
    if word.is_empty() {
        return Ok(Bound::Unbounded);
    }
    match word.strip_prefix('=') {
        Some(word) => Ok(Bound::Included(key(word)?)),
        None => Ok(Bound::Excluded(key(word.strip_prefix('<').unwrap_or(word))?)),
    }
}

/// The call that must fail, from 1, by the last word of a line, or `None` if there is no word.
pub fn nth_call(words: &[&str]) -> Result<Option<u64>, Fault> {
    match words {
        [] => Ok(None),
        [word] if !word.starts_with('+') => match word.parse::<u64>() {
            Ok(0) | Err(_) => Err(Fault::Bad),
            Ok(nth) => Ok(Some(nth)),
        },
        _ => Err(Fault::Bad),
    }
}
