//! `a is_disjoint b` and kin: how the keys of a map compare with those of another map, of a set, or of a range.
use script_words::{Fault, Map, MapName, ScriptKey, SetName, State, bounds, print};
use std::alloc::AllocError;
use std::ops::Bound;

/// A question about the keys of a map and other keys.
#[derive(Clone, Copy, Drop)]
pub enum Relation<T: ScriptKey> {
    IsDisjoint(MapName),
    IsDisjointFromSet(SetName),
    Covers(MapName),
    CoversSet(SetName),
    LenWithin((Bound<T>, Bound<T>)),
}

impl<T: ScriptKey> Relation<T> {
    /// The question of the words after a map's name. The other map may be the same one.
    pub fn read(words: &[&str]) -> Result<Self, Fault> {
        match words {
            ["is_disjoint", other] => Ok(Relation::IsDisjoint(MapName::read(other)?)),
            ["is_disjoint_from_set", set] => Ok(Relation::IsDisjointFromSet(SetName::read(set)?)),
            ["covers", other] => Ok(Relation::Covers(MapName::read(other)?)),
            ["covers_set", set] => Ok(Relation::CoversSet(SetName::read(set)?)),
            ["len_within", range] => Ok(Relation::LenWithin(bounds(range)?)),
            _ => Err(Fault::Bad),
        }
    }

    /// Makes the call, and prints its answer.
    pub fn make(
        self,
        map: &Map<T>,
        state: &State<T>,
        reply: &mut String,
    ) -> Result<(), AllocError> {
        match self {
            Relation::IsDisjoint(other) => print(map.is_disjoint(state.map(other)), reply),
            Relation::IsDisjointFromSet(set) => {
                print(map.is_disjoint_from_set(state.set(set)), reply)
            }
            Relation::Covers(other) => print(map.covers(state.map(other)), reply),
            Relation::CoversSet(set) => print(map.covers_set(state.set(set)), reply),
            Relation::LenWithin(range) => T::print_len(map.len_within(range), reply),
        }
    }
}
