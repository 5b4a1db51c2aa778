//! `c = clone a` and kin: a map made of one map or of a value.
use crate::joins::first_characters;
use script_words::{Fault, Map, MapName, ScriptKey, State, bounds, key, other_map, value};
use std::alloc::{AllocError, Global};
use std::ops::Bound;

/// How a map is made.
#[derive(Drop)]
pub enum Make<T: ScriptKey> {
    Clone(MapName),
    ComplementWith(MapName, String),
    UniverseWith(String),
    SplitOff(MapName, T),
    RangesTake(MapName, (Bound<T>, Bound<T>)),
    TransformValues(MapName),
}

impl<T: ScriptKey> Make<T> {
    /// The call that the words after `=` ask for. A map whose keys are removed must not be the target.
    pub fn read(alloc: Global, target: MapName, words: &[&str]) -> Result<Self, Fault> {
        match words {
            ["clone", map] => Ok(Make::Clone(MapName::read(map)?)),
            ["transform_values", map] => Ok(Make::TransformValues(MapName::read(map)?)),
            ["complement_with", map, text] => {
                Ok(Make::ComplementWith(MapName::read(map)?, value(alloc, text)?))
            }
            ["universe_with", text] => Ok(Make::UniverseWith(value(alloc, text)?)),
            [map, "split_off", word] => { Ok(Make::SplitOff(other_map(target, map)?, key(word)?)) }
            [map, "ranges_take", word] => {
                Ok(Make::RangesTake(other_map(target, map)?, bounds(word)?))
            }
            _ => Err(Fault::Bad),
        }
    }

    /// Makes the call.
    pub fn make(self, state: &mut State<T>) -> Result<Map<T>, AllocError> {
        match self {
            Make::Clone(map) => state.map(map).clone(),
            Make::ComplementWith(map, value) => state.map(map).complement_with(&value),
            Make::UniverseWith(value) => Map::universe_with(state.alloc, &value),
            Make::TransformValues(map) => first_characters(state.alloc, state.map(map)),
            Make::SplitOff(map, key) => state.map_mut(map).split_off(key),
            Make::RangesTake(map, range) => state.map_mut(map).ranges_take(range),
        }
    }
}
