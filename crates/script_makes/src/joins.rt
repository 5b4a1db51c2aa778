//! `c = inner_join a b` and kin: the results of a closure at the values of maps.
use script_words::{Fault, Map, MapName, ScriptKey, State};
use std::alloc::{AllocError, Global};

/// Two words with `+` between them. A missing one is `-`.
pub fn joined(
    alloc: Global,
    left: Option<&String>,
    right: Option<&String>,
) -> Result<String, AllocError> {
    let mut word = String::new(alloc);
    word.push_str(left.map_or("-", |left| left.as_str()))?;
    word.push_str("+")?;
    word.push_str(right.map_or("-", |right| right.as_str()))?;
    Ok(word)
}

/// The first character of a word.
pub fn first_character(alloc: Global, word: &String) -> Result<String, AllocError> {
    let mut first = String::new(alloc);
    if let Some(character) = word.chars().next() {
        first.push(character)?;
    }
    Ok(first)
}

/// The result of a closure. If an allocation fails, it is an empty word, and the failure is remembered.
pub fn answer(alloc: Global, made: Result<String, AllocError>, is_refused: &mut bool) -> String {
    match made {
        Ok(word) => word,
        Err(_) => {
            *is_refused = true;
            String::new(alloc)
        }
    }
}

/// The map of a closure's results, unless an allocation of one of them failed.
pub fn unless_refused<T: ScriptKey>(
    made: Result<Map<T>, AllocError>,
    is_refused: bool,
) -> Result<Map<T>, AllocError> {
    if is_refused { Err(AllocError) } else { made }
}

/// The keys at which the words of two maps are joined.
#[derive(Clone, Copy)]
enum Kind {
    Inner,
    Left,
    Full,
}

/// The words of two maps, joined.
#[derive(Clone, Copy)]
pub struct Join {
    kind: Kind,
    left: MapName,
    right: MapName,
}

impl Join {
    /// The join that the words behind `=` ask for. The two maps may be one.
    pub fn read(words: &[&str]) -> Result<Self, Fault> {
        let [call, left, right] = words else {
            return Err(Fault::Bad);
        };
        let kind = match *call {
            "inner_join" => Kind::Inner,
            "left_join" => Kind::Left,
            "full_join" => Kind::Full,
            _ => return Err(Fault::Bad),
        };
        Ok(Join {
            kind,
            left: MapName::read(left)?,
            right: MapName::read(right)?,
        })
    }

    /// Makes the call.
    pub fn make<T: ScriptKey>(self, state: &State<T>) -> Result<Map<T>, AllocError> {
        let alloc = state.alloc;
        let (left, right) = (state.map(self.left), state.map(self.right));
        let mut is_refused = false;
        let made = match self.kind {
            Kind::Inner => left.inner_join(right, |left, right| {
                answer(
                    alloc,
                    joined(alloc, Some(left), Some(right)),
                    &mut is_refused,
                )
            }),
            Kind::Left => left.left_join(right, |left, right| {
                answer(alloc, joined(alloc, Some(left), right), &mut is_refused)
            }),
            Kind::Full => left.full_join(right, |left, right| {
                answer(alloc, joined(alloc, left, right), &mut is_refused)
            }),
        };
        unless_refused(made, is_refused)
    }
}

/// The first characters of the words of a map, on its keys.
pub fn first_characters<T: ScriptKey>(alloc: Global, map: &Map<T>) -> Result<Map<T>, AllocError> {
    let mut is_refused = false;
    let made = map.transform_values(|word| {
        answer(alloc, first_character(alloc, word), &mut is_refused)
    });
    unless_refused(made, is_refused)
}
