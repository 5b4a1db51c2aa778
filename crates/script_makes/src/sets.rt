//! `s = set R ..` and kin: sets of keys.
use crate::operators::Complement;
use range_map_blaze::RangeSetBlaze;
use script_words::{Fault, ScriptKey, State, inclusive};
use std::alloc::{AllocError, Global};
use std::ops::RangeInclusive;

/// The ranges of some words.
fn ranges<T: ScriptKey>(alloc: Global, words: &[&str]) -> Result<Vec<RangeInclusive<T>>, Fault> {
    let mut ranges = Vec::new(alloc);
    for word in words {
        ranges.push(inclusive(word)?)?;
    }
    Ok(ranges)
}

/// How a set is made.
#[derive(Drop)]
pub enum MakeSet<T: ScriptKey> {
    Complement(Complement),
    Of(Vec<RangeInclusive<T>>),
}

impl<T: ScriptKey> MakeSet<T> {
    /// The call that the words after `=` ask for.
    pub fn read(alloc: Global, words: &[&str]) -> Result<Self, Fault> {
        match words {
            ["set", words @ ..] => Ok(MakeSet::Of(ranges(alloc, words)?)),
            _ => Ok(MakeSet::Complement(Complement::read(words)?)),
        }
    }

    /// Makes the call.
    pub fn make(self, state: &mut State<T>) -> Result<RangeSetBlaze<T>, AllocError> {
        match self {
            MakeSet::Complement(complement) => complement.make(state),
            MakeSet::Of(ranges) => RangeSetBlaze::from_ranges(state.alloc, ranges),
        }
    }
}
