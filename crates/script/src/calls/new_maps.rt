//! `c = ..`: a map that replaces one.
use crate::calls::many::Many;
use script_makes::{FromPairs, Join, Make, Operation, TryJoin};
use script_words::{Fault, Map, MapName, ScriptKey, State, unless_bad};
use std::alloc::Global;

/// How a map is made.
#[derive(Drop)]
pub enum NewMap<T: ScriptKey> {
    Operate(Operation),
    Join(Join),
    TryJoin(TryJoin),
    Many(Many),
    FromPairs(FromPairs<T>),
    Make(Make<T>),
}

impl<T: ScriptKey> NewMap<T> {
    /// The call that the words after `=` ask for.
    pub fn read(alloc: Global, target: MapName, words: &[&str]) -> Result<Self, Fault> {
        if let Ok(operation) = Operation::read(words) {
            return Ok(NewMap::Operate(operation));
        }
        if let Ok(join) = Join::read(words) {
            return Ok(NewMap::Join(join));
        }
        if let Ok(join) = TryJoin::read(words) {
            return Ok(NewMap::TryJoin(join));
        }
        if let Some(many) = unless_bad(Many::read(alloc, words))? {
            return Ok(NewMap::Many(many));
        }
        if let Some(pairs) = unless_bad(FromPairs::read(alloc, words))? {
            return Ok(NewMap::FromPairs(pairs));
        }
        Ok(NewMap::Make(Make::read(alloc, target, words)?))
    }

    /// Makes the call.
    pub fn make(self, state: &mut State<T>) -> Result<Map<T>, Fault> {
        match self {
            NewMap::Operate(operation) => Ok(operation.make(state)?),
            NewMap::Join(join) => Ok(join.make(state)?),
            NewMap::TryJoin(join) => Ok(join.make(state)?),
            NewMap::Many(many) => many.make(state),
            NewMap::FromPairs(pairs) => pairs.make(state.alloc),
            NewMap::Make(make) => Ok(make.make(state)?),
        }
    }
}
