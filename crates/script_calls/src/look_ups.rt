//! `a get K` and kin: calls that read one map.
use script_words::{Fault, Map, ScriptKey, key, print, print_made};
use std::alloc::AllocError;
use std::fmt::Write;

/// A lookup in one map.
#[derive(Clone, Copy, Drop)]
pub enum LookUp<T: ScriptKey> {
    AtKey(AtKey, T),
    OfWhole(OfWhole),
}

/// A lookup in a map at a key.
#[derive(Clone, Copy)]
pub enum AtKey {
    Get,
    GetKeyValue,
    ContainsKey,
    Index,
    RangeAt,
    RangeOrGapAt,
}

/// A question about a whole map.
#[derive(Clone, Copy)]
pub enum OfWhole {
    FirstKeyValue,
    LastKeyValue,
    Len,
    IsEmpty,
    IsUniversal,
    RangesLen,
    List,
    FillGaps,
    Debug,
}

impl<T: ScriptKey> LookUp<T> {
    /// The lookup that the words after a map's name ask for.
    pub fn read(words: &[&str]) -> Result<Self, Fault> {
        match words {
            [call, word] => Ok(LookUp::AtKey(AtKey::read(call)?, key(word)?)),
            [call] => Ok(LookUp::OfWhole(OfWhole::read(call)?)),
            _ => Err(Fault::Bad),
        }
    }

    /// Makes the call, and prints its answer.
    pub fn make(self, map: &Map<T>, reply: &mut String) -> Result<(), Fault> {
        match self {
            LookUp::AtKey(AtKey::Index, key) => index(map, key, reply),
            LookUp::AtKey(call, key) => Ok(call.make(map, key, reply)?),
            LookUp::OfWhole(call) => Ok(call.make(map, reply)?),
        }
    }
}

/// Prints the value at a key. A key without a value is an error of the script.
fn index<T: ScriptKey>(map: &Map<T>, key: T, reply: &mut String) -> Result<(), Fault> {
    if !map.contains_key(key) {
        return Err(Fault::Bad);
    }
    Ok(print(&map[key], reply)?)
}

impl AtKey {
    fn read(word: &str) -> Result<Self, Fault> {
        match word {
            "get" => Ok(AtKey::Get),
            "get_key_value" => Ok(AtKey::GetKeyValue),
            "contains_key" => Ok(AtKey::ContainsKey),
            "index" => Ok(AtKey::Index),
            "range_at" => Ok(AtKey::RangeAt),
            "range_or_gap_at" => Ok(AtKey::RangeOrGapAt),
            _ => Err(Fault::Bad),
        }
    }

    fn make<T: ScriptKey>(
        self,
        map: &Map<T>,
        key: T,
        reply: &mut String,
    ) -> Result<(), AllocError> {
        match self {
            AtKey::Get | AtKey::Index => print(map.get(key), reply),
            AtKey::GetKeyValue => print(map.get_key_value(key), reply),
            AtKey::ContainsKey => print(map.contains_key(key), reply),
            AtKey::RangeAt => print(map.range_at(key), reply),
            AtKey::RangeOrGapAt => print(map.range_or_gap_at(key), reply),
        }
    }
}

impl OfWhole {
    fn read(word: &str) -> Result<Self, Fault> {
        match word {
            "first_key_value" => Ok(OfWhole::FirstKeyValue),
            "last_key_value" => Ok(OfWhole::LastKeyValue),
            "len" => Ok(OfWhole::Len),
            "is_empty" => Ok(OfWhole::IsEmpty),
            "is_universal" => Ok(OfWhole::IsUniversal),
            "ranges_len" => Ok(OfWhole::RangesLen),
            "list" => Ok(OfWhole::List),
            "fill_gaps" => Ok(OfWhole::FillGaps),
            "debug" => Ok(OfWhole::Debug),
            _ => Err(Fault::Bad),
        }
    }

    fn make<T: ScriptKey>(self, map: &Map<T>, reply: &mut String) -> Result<(), AllocError> {
        match self {
            OfWhole::FirstKeyValue => print(map.first_key_value(), reply),
            OfWhole::LastKeyValue => print(map.last_key_value(), reply),
            OfWhole::Len => T::print_len(map.len(), reply),
            OfWhole::IsEmpty => print(map.is_empty(), reply),
            OfWhole::IsUniversal => print(map.is_universal(), reply),
            OfWhole::RangesLen => print(map.ranges_len(), reply),
            OfWhole::List => write!(reply, "{map}"),
            OfWhole::FillGaps => print_made(map.fill_gaps(), reply),
            OfWhole::Debug => print(map, reply),
        }
    }
}
