//! `a append b` and kin: another map painted over a map, or filled into its gaps.
use script_words::{Fault, MapName, ScriptKey, State, other_map, print_made};
use std::alloc::AllocError;

/// How another map changes a map.
#[derive(Clone, Copy)]
enum Kind {
    ExtendFrom,
    ExtendWith,
    ExtendAbsent,
    BitOrAssign,
    BitOrAssignRef,
    Append,
}

impl Kind {
    fn read(word: &str) -> Result<Self, Fault> {
        match word {
            "extend_from" => Ok(Kind::ExtendFrom),
            "extend_with" => Ok(Kind::ExtendWith),
            "extend_absent" => Ok(Kind::ExtendAbsent),
            "bitor_assign" => Ok(Kind::BitOrAssign),
            "bitor_assign_ref" => Ok(Kind::BitOrAssignRef),
            "append" => Ok(Kind::Append),
            _ => Err(Fault::Bad),
        }
    }
}

/// Another map, and how it changes a map.
#[derive(Clone, Copy)]
pub struct OtherMap {
    kind: Kind,
    other: MapName,
}

impl OtherMap {
    /// The call that the words after a map's name ask for. The two maps must be different.
    pub fn read(map: MapName, words: &[&str]) -> Result<Self, Fault> {
        let [call, other] = words else {
            return Err(Fault::Bad);
        };
        let kind = Kind::read(call)?;
        let other = other_map(map, other)?;
        Ok(OtherMap { kind, other })
    }

    /// Makes the call, and prints its result. An owned map is empty afterwards.
    pub fn make<T: ScriptKey>(
        self,
        map: MapName,
        state: &mut State<T>,
        reply: &mut String,
    ) -> Result<(), AllocError> {
        let mut other = state.take_map(self.other);
        let map = state.map_mut(map);
        let made = match self.kind {
            Kind::ExtendFrom => return print_made(map.extend_from(other), reply),
            Kind::BitOrAssign => return print_made(map.bitor_assign(other), reply),
            Kind::ExtendWith => map.extend_with(&other),
            Kind::ExtendAbsent => map.extend_absent(&other),
            Kind::BitOrAssignRef => map.bitor_assign_ref(&other),
            Kind::Append => map.append(&mut other),
        };
        state.set_map(self.other, other);
        print_made(made, reply)
    }
}
