//! `a == b` and kin: two maps compared.
use script_words::{Fault, Map, MapName, ScriptKey, State, print};
use std::alloc::AllocError;
use std::hash::{DefaultHasher, Hash, Hasher};

/// How two maps are compared.
#[derive(Clone, Copy)]
enum Kind {
    Equals,
    Cmp,
    HashesAs,
}

/// A map with which a map is compared. It may be the same one.
#[derive(Clone, Copy)]
pub struct Comparison {
    kind: Kind,
    other: MapName,
}

/// The number that std's hasher gives a map.
fn hash_of<T: ScriptKey>(map: &Map<T>) -> u64 {
    let mut hasher = DefaultHasher::new();
    map.hash(&mut hasher);
    hasher.finish()
}

impl Comparison {
    /// The comparison that the words after a map's name ask for.
    pub fn read(words: &[&str]) -> Result<Self, Fault> {
        let [call, other] = words else {
            return Err(Fault::Bad);
        };
        let kind = match *call {
            "==" => Kind::Equals,
            "cmp" => Kind::Cmp,
            "hashes_as" => Kind::HashesAs,
            _ => return Err(Fault::Bad),
        };
        let other = MapName::read(other)?;
        Ok(Comparison { kind, other })
    }

    /// Makes the call, and prints its answer.
    pub fn make<T: ScriptKey>(
        self,
        map: &Map<T>,
        state: &State<T>,
        reply: &mut String,
    ) -> Result<(), AllocError> {
        let other = state.map(self.other);
        match self.kind {
            Kind::Equals => print(*map == *other, reply),
            Kind::Cmp => print(map.cmp(other), reply),
            Kind::HashesAs => print(hash_of(map) == hash_of(other), reply),
        }
    }
}
