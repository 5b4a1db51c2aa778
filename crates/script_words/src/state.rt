//! The maps and sets that a script names.
use crate::fault::Fault;
use crate::keys::ScriptKey;
use range_map_blaze::{RangeMapBlaze, RangeSetBlaze};
use std::alloc::{AllocError, Global};
use std::mem;

/// A map of a script: its values are words.
pub type Map<T> = RangeMapBlaze<T, String>;

/// The name of a map.
#[derive(Clone, Copy, PartialEq, Eq)]
pub enum MapName {
    A,
    B,
    C,
    D,
}

impl MapName {
    /// The map that a word names.
    pub fn read(word: &str) -> Result<Self, Fault> {
        match word {
            "a" => Ok(MapName::A),
            "b" => Ok(MapName::B),
            "c" => Ok(MapName::C),
            "d" => Ok(MapName::D),
            _ => Err(Fault::Bad),
        }
    }
}

/// The map that a word names, which must not be the one that is changed.
pub fn other_map(map: MapName, word: &str) -> Result<MapName, Fault> {
    let other = MapName::read(word)?;
    if other == map {
        return Err(Fault::Bad);
    }
    Ok(other)
}

/// The name of a set.
#[derive(Clone, Copy, PartialEq, Eq)]
pub enum SetName {
    S,
    T,
}

impl SetName {
    /// The set that a word names.
    pub fn read(word: &str) -> Result<Self, Fault> {
        match word {
            "s" => Ok(SetName::S),
            "t" => Ok(SetName::T),
            _ => Err(Fault::Bad),
        }
    }
}

/// The maps and sets of one key type.
#[derive(Drop)]
pub struct State<T: ScriptKey> {
    pub alloc: Global,
    a: Map<T>,
    b: Map<T>,
    c: Map<T>,
    d: Map<T>,
    s: RangeSetBlaze<T>,
    t: RangeSetBlaze<T>,
}

impl<T: ScriptKey> State<T> {
    /// Empty maps and sets.
    pub fn new(alloc: Global) -> Self {
        State {
            alloc,
            a: Map::new(alloc),
            b: Map::new(alloc),
            c: Map::new(alloc),
            d: Map::new(alloc),
            s: RangeSetBlaze::new(alloc),
            t: RangeSetBlaze::new(alloc),
        }
    }

    /// A map, borrowed.
    pub fn map(&self, name: MapName) -> &Map<T> {
        match name {
            MapName::A => &self.a,
            MapName::B => &self.b,
            MapName::C => &self.c,
            MapName::D => &self.d,
        }
    }

    /// A map, to be changed.
    pub fn map_mut(&mut self, name: MapName) -> &mut Map<T> {
        match name {
            MapName::A => &mut self.a,
            MapName::B => &mut self.b,
            MapName::C => &mut self.c,
            MapName::D => &mut self.d,
        }
    }

    /// An owned map, which is empty in the script afterwards.
    pub fn take_map(&mut self, name: MapName) -> Map<T> {
        let empty = Map::new(self.alloc);
        mem::replace(self.map_mut(name), empty)
    }

    /// Replaces a map.
    pub fn set_map(&mut self, name: MapName, map: Map<T>) {
        *self.map_mut(name) = map;
    }

    /// A set, borrowed.
    pub fn set(&self, name: SetName) -> &RangeSetBlaze<T> {
        match name {
            SetName::S => &self.s,
            SetName::T => &self.t,
        }
    }

    /// A copy of a set.
    pub fn clone_set(&self, name: SetName) -> Result<RangeSetBlaze<T>, AllocError> {
        RangeSetBlaze::from_ranges(self.alloc, self.set(name).ranges())
    }

    /// An owned set, which is empty in the script afterwards.
    pub fn take_set(&mut self, name: SetName) -> RangeSetBlaze<T> {
        let empty = RangeSetBlaze::new(self.alloc);
        match name {
            SetName::S => mem::replace(&mut self.s, empty),
            SetName::T => mem::replace(&mut self.t, empty),
        }
    }

    /// Replaces a set.
    pub fn set_set(&mut self, name: SetName, set: RangeSetBlaze<T>) {
        match name {
            SetName::S => self.s = set,
            SetName::T => self.t = set,
        }
    }
}
