//! Calls of a map that is named first.
use crate::calls::runs::Run;
use script_calls::{Change, Comparison, Extend, Iterate, LookUp, OtherMap, Relation, Update};
use script_words::{Fault, MapName, ScriptKey, State, unless_bad};

/// A call of a map.
#[derive(Drop)]
pub enum OfMap<T: ScriptKey> {
    LookUp(LookUp<T>),
    Change(Change<T>),
    Extend(Extend<T>),
    OtherMap(OtherMap),
    Compare(Comparison),
    Relate(Relation<T>),
    Update(Update<T>),
    Run(Run<T>),
    Iterate(Iterate<T>),
}

impl<T: ScriptKey> OfMap<T> {
    /// The call that the words after a map's name ask for.
    pub fn read(state: &State<T>, map: MapName, words: &[&str]) -> Result<Self, Fault> {
        if let Ok(look_up) = LookUp::read(words) {
            return Ok(OfMap::LookUp(look_up));
        }
        if let Ok(other) = OtherMap::read(map, words) {
            return Ok(OfMap::OtherMap(other));
        }
        if let Ok(comparison) = Comparison::read(words) {
            return Ok(OfMap::Compare(comparison));
        }
        if let Ok(relation) = Relation::read(words) {
            return Ok(OfMap::Relate(relation));
        }
        Self::read_owning(state, map, words)
    }

    /// The call of such words, if it owns memory.
    fn read_owning(state: &State<T>, map: MapName, words: &[&str]) -> Result<Self, Fault> {
        if let Some(change) = unless_bad(Change::read(state.alloc, words))? {
            return Ok(OfMap::Change(change));
        }
        if let Some(update) = unless_bad(Update::read(state.alloc, words))? {
            return Ok(OfMap::Update(update));
        }
        if let Some(extend) = unless_bad(Extend::read(state.alloc, words))? {
            return Ok(OfMap::Extend(extend));
        }
        if let Some(run) = unless_bad(Run::read(state, map, words))? {
            return Ok(OfMap::Run(run));
        }
        Ok(OfMap::Iterate(Iterate::read(state.alloc, words)?))
    }

    /// Makes the call, and prints its answer.
    pub fn make(self, map: MapName, state: &mut State<T>, reply: &mut String) -> Result<(), Fault> {
        match self {
            OfMap::LookUp(look_up) => look_up.make(state.map(map), reply),
            OfMap::Change(change) => Ok(change.make(state.map_mut(map), reply)?),
            OfMap::Extend(extend) => Ok(extend.make(state.map_mut(map), reply)?),
            OfMap::OtherMap(other) => Ok(other.make(map, state, reply)?),
            OfMap::Compare(comparison) => Ok(comparison.make(state.map(map), state, reply)?),
            OfMap::Relate(relation) => Ok(relation.make(state.map(map), state, reply)?),
            OfMap::Update(update) => Ok(update.make(state.map_mut(map), reply)?),
            OfMap::Run(run) => run.make(state.alloc, state.map_mut(map), reply),
            OfMap::Iterate(iterate) => iterate.make(map, state, reply),
        }
    }
}
