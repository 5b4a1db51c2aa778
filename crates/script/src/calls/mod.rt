//! The call of a line.
use crate::calls::many::Sweep;
use crate::calls::maps::OfMap;
use crate::calls::new_maps::NewMap;
use range_map_blaze::RangeSetBlaze;
use script_calls::SetLookUp;
use script_makes::MakeSet;
use script_words::{Fault, Map, MapName, ScriptKey, SetName, State};

pub mod many;
pub mod maps;
pub mod new_maps;
pub mod runs;

/// The call of a line, with its arguments.
#[derive(Drop)]
pub enum Call<T: ScriptKey> {
    OfMap(MapName, OfMap<T>),
    OfSet(SetName, SetLookUp<T>),
    Sweep(Sweep),
    NewMap(MapName, NewMap<T>),
    NewSet(SetName, MakeSet<T>),
}

impl<T: ScriptKey> Call<T> {
    /// The call of a line.
    pub fn read(state: &State<T>, line: &str) -> Result<Self, Fault> {
        let words: Vec<&str> = line.split(' ').collect(state.alloc)?;
        match words.as_slice() {
            [target, "=", rest @ ..] => match SetName::read(target) {
                Ok(set) => Ok(Call::NewSet(set, MakeSet::read(state.alloc, rest)?)),
                Err(_) => Self::read_new_map(state, target, rest),
            },
            ["sweep", names @ ..] => Ok(Call::Sweep(Sweep::read(state.alloc, names)?)),
            [name, rest @ ..] => match SetName::read(name) {
                Ok(set) => Ok(Call::OfSet(set, SetLookUp::read(rest)?)),
                Err(_) => Self::read_of_map(state, name, rest),
            },
            [] => Err(Fault::Bad),
        }
    }

    /// The call of a line that begins with a map's name.
    fn read_of_map(state: &State<T>, name: &str, words: &[&str]) -> Result<Self, Fault> {
        let map = MapName::read(name)?;
        Ok(Call::OfMap(map, OfMap::read(state, map, words)?))
    }

    /// The call of a line that replaces a map.
    fn read_new_map(state: &State<T>, name: &str, words: &[&str]) -> Result<Self, Fault> {
        let target = MapName::read(name)?;
        Ok(Call::NewMap(target, NewMap::read(state.alloc, target, words)?))
    }

    /// Makes the call, and prints its answer.
    pub fn make(self, state: &mut State<T>, reply: &mut String) -> Result<(), Fault> {
        match self {
            Call::OfMap(map, call) => call.make(map, state, reply),
            Call::OfSet(set, look_up) => Ok(look_up.make(state.set(set), state, reply)?),
            Call::Sweep(sweep) => Ok(sweep.make(state, reply)?),
            Call::NewMap(target, call) => {
                let made = call.make(state);
                put_map(state, target, made, reply)
            }
            Call::NewSet(target, call) => {
                let made = call.make(state);
                put_set(state, target, made?, reply)
            }
        }
    }
}

/// Replaces a map.
fn put_map<T: ScriptKey>(
    state: &mut State<T>,
    target: MapName,
    made: Result<Map<T>, Fault>,
    reply: &mut String,
) -> Result<(), Fault> {
    state.set_map(target, made?);
    Ok(reply.push_str("()")?)
}

/// Replaces a set.
fn put_set<T: ScriptKey>(
    state: &mut State<T>,
    target: SetName,
    made: RangeSetBlaze<T>,
    reply: &mut String,
) -> Result<(), Fault> {
    state.set_set(target, made);
    Ok(reply.push_str("()")?)
}
