//! Pairs of a key or a range and a value, as scripts write them.
use crate::fault::Fault;
use crate::keys::ScriptKey;
use crate::words::{inclusive, key, value};
use std::alloc::Global;
use std::ops::RangeInclusive;

/// The pairs of some words: a key, its value, and so on.
pub fn points<T: ScriptKey>(alloc: Global, words: &[&str]) -> Result<Vec<(T, String)>, Fault> {
    let mut pairs = Vec::new(alloc);
    for pair in words.chunks(2) {
        let [word, text] = pair else {
            return Err(Fault::Bad);
        };
        pairs.push((key(word)?, value(alloc, text)?))?;
    }
    Ok(pairs)
}

/// The pairs of some words: a range, its value, and so on.
pub fn ranges<T: ScriptKey>(
    alloc: Global,
    words: &[&str],
) -> Result<Vec<(RangeInclusive<T>, String)>, Fault> {
    let mut pairs = Vec::new(alloc);
    for pair in words.chunks(2) {
        let [word, text] = pair else {
            return Err(Fault::Bad);
        };
        pairs.push((inclusive(word)?, value(alloc, text)?))?;
    }
    Ok(pairs)
}
