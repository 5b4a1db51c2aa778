//! `s list` and kin: calls that read one set.
use range_map_blaze::RangeSetBlaze;
use script_words::{Fault, ScriptKey, SetName, State, key, print};
use std::alloc::AllocError;
use std::fmt::Write;

/// A question about a set.
#[derive(Clone, Copy)]
pub enum SetLookUp<T: ScriptKey> {
    List,
    Len,
    RangesLen,
    Contains(T),
    Equals(SetName),
}

impl<T: ScriptKey> SetLookUp<T> {
    /// The lookup that the words after a set's name ask for.
    pub fn read(words: &[&str]) -> Result<Self, Fault> {
        match words {
            ["list"] => Ok(SetLookUp::List),
            ["len"] => Ok(SetLookUp::Len),
            ["ranges_len"] => Ok(SetLookUp::RangesLen),
            ["contains", word] => Ok(SetLookUp::Contains(key(word)?)),
            ["==", other] => Ok(SetLookUp::Equals(SetName::read(other)?)),
            _ => Err(Fault::Bad),
        }
    }

    /// Makes the call, and prints its answer.
    pub fn make(
        self,
        set: &RangeSetBlaze<T>,
        state: &State<T>,
        reply: &mut String,
    ) -> Result<(), AllocError> {
        match self {
            SetLookUp::List => write!(reply, "{set}"),
            SetLookUp::Len => T::print_len(set.len(), reply),
            SetLookUp::RangesLen => print(set.ranges_len(), reply),
            SetLookUp::Contains(key) => print(set.contains(key), reply),
            SetLookUp::Equals(other) => print(*set == *state.set(other), reply),
        }
    }
}
