//! `c = union a b ..` and kin: operations between any number of borrowed maps.
use range_map_blaze::SweepEvent;
use range_map_multi::{MultiwayRangeMapBlazeRef, MultiwaySortedDisjointMap};
use script_makes::{answer, unless_refused};
use script_words::{Fault, Map, MapName, ScriptKey, State};
use std::alloc::{AllocError, Global};

/// An operation between any number of maps.
#[derive(Clone, Copy)]
enum Kind {
    Union,
    Intersection,
    SymmetricDifference,
    InnerJoin,
    FullJoin,
}

/// An operation between borrowed maps.
#[derive(Drop)]
pub struct Many {
    kind: Kind,
    maps: Vec<MapName>,
}

impl Many {
    /// The operation that the words after `=` ask for. A map may be named twice.
    pub fn read(alloc: Global, words: &[&str]) -> Result<Self, Fault> {
        let [call, names @ ..] = words else {
            return Err(Fault::Bad);
        };
        let kind = match *call {
            "union" => Kind::Union,
            "intersection" => Kind::Intersection,
            "symmetric_difference" => Kind::SymmetricDifference,
            "many_inner_join" => Kind::InnerJoin,
            "many_full_join" => Kind::FullJoin,
            _ => return Err(Fault::Bad),
        };
        let maps = map_names(alloc, names)?;
        Ok(Many { kind, maps })
    }

    /// Makes the call. An intersection of no maps is an error of the script.
    pub fn make<T: ScriptKey>(self, state: &State<T>) -> Result<Map<T>, Fault> {
        let borrowed = borrowed_maps(state, &self.maps)?;
        match self.kind {
            Kind::Intersection => intersection(state.alloc, borrowed),
            kind => Ok(combined(state.alloc, kind, borrowed)?),
        }
    }
}

/// The intersection of at least one map. That of no maps is an error of the script.
fn intersection<T: ScriptKey>(alloc: Global, maps: Vec<&Map<T>>) -> Result<Map<T>, Fault> {
    if maps.is_empty() {
        return Err(Fault::Bad);
    }
    Ok(maps.intersection(alloc)?)
}

/// An operation between any number of maps, except an intersection.
fn combined<T: ScriptKey>(
    alloc: Global,
    kind: Kind,
    maps: Vec<&Map<T>>,
) -> Result<Map<T>, AllocError> {
    match kind {
        Kind::Union | Kind::Intersection => maps.union(alloc),
        Kind::SymmetricDifference => maps.symmetric_difference(alloc),
        Kind::InnerJoin => inner_join(alloc, maps),
        Kind::FullJoin => full_join(alloc, maps),
    }
}

/// The names of maps.
fn map_names(alloc: Global, words: &[&str]) -> Result<Vec<MapName>, Fault> {
    let mut names = Vec::new(alloc);
    for word in words {
        names.push(MapName::read(word)?)?;
    }
    Ok(names)
}

/// The maps of the names, borrowed.
fn borrowed_maps<'a, T: ScriptKey>(
    state: &'a State<T>,
    names: &[MapName],
) -> Result<Vec<&'a Map<T>>, AllocError> {
    let mut borrowed = Vec::new(state.alloc);
    for name in names {
        borrowed.push(state.map(*name))?;
    }
    Ok(borrowed)
}

/// Appends a word to others, after a `+`, or replaces `none` by it.
fn put_word(words: &mut String, word: &str, is_first: bool) -> Result<(), AllocError> {
    if !is_first {
        words.push_str("+")?;
    }
    words.push_str(word)
}

/// The words with `+` between them, or `none` if there are none.
fn all_joined(alloc: Global, row: &[&String]) -> Result<String, AllocError> {
    let mut words = String::new(alloc);
    if row.is_empty() {
        words.push_str("none")?;
    }
    let mut is_first = true;
    for word in row {
        put_word(&mut words, word.as_str(), is_first)?;
        is_first = false;
    }
    Ok(words)
}

/// The words with `+` between them. A missing one is `-`.
fn present_joined(alloc: Global, row: &[Option<&String>]) -> Result<String, AllocError> {
    let mut words = String::new(alloc);
    let mut is_first = true;
    for word in row {
        put_word(&mut words, word.map_or("-", |word| word.as_str()), is_first)?;
        is_first = false;
    }
    Ok(words)
}

/// The words where all maps have one, as one word.
fn inner_join<T: ScriptKey>(alloc: Global, maps: Vec<&Map<T>>) -> Result<Map<T>, AllocError> {
    let mut is_refused = false;
    let made = maps.inner_join(
        alloc,
        |row| answer(alloc, all_joined(alloc, row), &mut is_refused),
    );
    unless_refused(made, is_refused)
}

/// The words where at least one map has one, as one word.
fn full_join<T: ScriptKey>(alloc: Global, maps: Vec<&Map<T>>) -> Result<Map<T>, AllocError> {
    let mut is_refused = false;
    let made = maps.full_join(alloc, |row| {
        answer(alloc, present_joined(alloc, row), &mut is_refused)
    });
    unless_refused(made, is_refused)
}

/// The sweep over borrowed maps.
#[derive(Drop)]
pub struct Sweep {
    maps: Vec<MapName>,
}

impl Sweep {
    /// The sweep over the maps that the words name. A map may be named twice.
    pub fn read(alloc: Global, words: &[&str]) -> Result<Self, Fault> {
        let maps = map_names(alloc, words)?;
        Ok(Sweep { maps })
    }

    /// Makes the call, and prints the events, separated by a semicolon and a space.
    pub fn make<T: ScriptKey>(
        self,
        state: &State<T>,
        reply: &mut String,
    ) -> Result<(), AllocError> {
        let mut streams = Vec::new(state.alloc);
        for name in self.maps {
            streams.push(state.map(name).range_values())?;
        }
        let mut is_first = true;
        for event in streams.sweep(state.alloc)? {
            if !is_first {
                reply.push_str("; ")?;
            }
            is_first = false;
            print_event(event, reply)?;
        }
        Ok(())
    }
}

/// Prints an event of a sweep.
fn print_event<T: ScriptKey>(
    event: SweepEvent<T, &String>,
    reply: &mut String,
) -> Result<(), AllocError> {
    match event {
        SweepEvent::Start {
            range,
            input,
            value,
        } => write!(reply, "Start({range:?}, {input}, {value:?})"),
        SweepEvent::End { last, input } => write!(reply, "End({last:?}, {input})"),
    }
}
