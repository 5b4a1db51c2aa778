//! `a insert K V` and kin: calls that change one map.
use script_words::{Fault, Map, ScriptKey, bounds, key, print_made, value};
use std::alloc::{AllocError, Global};
use std::ops::Bound;

/// What changes one map.
#[derive(Drop)]
pub enum Change<T: ScriptKey> {
    Insert(T, String),
    RangesInsert((Bound<T>, Bound<T>), String),
    RangesInsertAbsent((Bound<T>, Bound<T>), String),
    RangesRemove((Bound<T>, Bound<T>)),
    Remove(T),
    PopFirst,
    PopLast,
    Clear,
    Retain(String),
    RangesRetain(String),
}

impl<T: ScriptKey> Change<T> {
    /// The change that the words after a map's name ask for.
    pub fn read(alloc: Global, words: &[&str]) -> Result<Self, Fault> {
        match words {
            ["insert", word, text] => Ok(Change::Insert(key(word)?, value(alloc, text)?)),
            ["ranges_insert", word, text] => {
                Ok(Change::RangesInsert(bounds(word)?, value(alloc, text)?))
            }
            ["ranges_insert_absent", word, text] => {
                Ok(Change::RangesInsertAbsent(bounds(word)?, value(alloc, text)?))
            }
            ["ranges_remove", word] => Ok(Change::RangesRemove(bounds(word)?)),
            ["remove", word] => Ok(Change::Remove(key(word)?)),
            ["retain", text] => Ok(Change::Retain(value(alloc, text)?)),
            ["ranges_retain", text] => Ok(Change::RangesRetain(value(alloc, text)?)),
            [word] => Self::read_bare(word),
            _ => Err(Fault::Bad),
        }
    }

    /// The change that one word asks for.
    fn read_bare(word: &str) -> Result<Self, Fault> {
        match word {
            "pop_first" => Ok(Change::PopFirst),
            "pop_last" => Ok(Change::PopLast),
            "clear" => Ok(Change::Clear),
            _ => Err(Fault::Bad),
        }
    }

    /// Makes the call, and prints its answer.
    pub fn make(self, map: &mut Map<T>, reply: &mut String) -> Result<(), AllocError> {
        match self {
            Change::Insert(key, value) => print_made(map.insert(key, value), reply),
            Change::RangesInsert(range, value) => print_made(
                map.ranges_insert(range, value),
                reply,
            ),
            Change::RangesInsertAbsent(range, value) => print_made(
                map.ranges_insert_absent(range, value),
                reply,
            ),
            Change::RangesRemove(range) => print_made(map.ranges_remove(range), reply),
            Change::Remove(key) => print_made(map.remove(key), reply),
            Change::PopFirst => print_made(map.pop_first(), reply),
            Change::PopLast => print_made(map.pop_last(), reply),
            Change::Clear => {
                map.clear();
                print_made(Ok(()), reply)
            }
            Change::Retain(kept) => print_made(map.retain(|_, value| *value == kept), reply),
            Change::RangesRetain(kept) => {
                map.ranges_retain(|_, value| *value == kept);
                print_made(Ok(()), reply)
            }
        }
    }
}
