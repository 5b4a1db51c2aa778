//! `c = try_inner_join a b N` and kin: the results of a closure that may fail at the values of maps.
use crate::joins::{first_character, joined};
use script_words::{Fault, Map, MapName, ScriptKey, State, nth_call};
use std::alloc::{AllocError, Global};

/// The result of a closure at two words.
#[derive(Clone, Copy)]
enum Answer {
    Joined,
    Formatted,
    FirstCharacter,
}

impl Answer {
    /// The result that a number stands for.
    fn read(word: &str) -> Result<Self, Fault> {
        match word {
            "0" => Ok(Answer::Joined),
            "1" => Ok(Answer::Formatted),
            "2" => Ok(Answer::FirstCharacter),
            _ => Err(Fault::Bad),
        }
    }
}

/// Two words with `/` between them. A missing one is `-`.
fn formatted(
    alloc: Global,
    left: Option<&String>,
    right: Option<&String>,
) -> Result<String, AllocError> {
    let left = left.map_or("-", |left| left.as_str());
    let right = right.map_or("-", |right| right.as_str());
    format!(in alloc; "{left}/{right}")
}

/// A closure that is called once for each of the ranges on which no map changes.
#[derive(Clone, Copy)]
struct Closure {
    answer: Answer,
    /// The call that must fail, from 1, if any.
    failing: Option<u64>,
    /// How many calls were made.
    count: u64,
}

impl Closure {
    /// The closure of some words: the number of its result, and perhaps the call that fails.
    fn read(words: &[&str]) -> Result<Self, Fault> {
        let [answer, failing @ ..] = words else {
            return Err(Fault::Bad);
        };
        Ok(Closure {
            answer: Answer::read(answer)?,
            failing: nth_call(failing)?,
            count: 0,
        })
    }

    /// The result of a call.
    fn call(
        &mut self,
        alloc: Global,
        left: Option<&String>,
        right: Option<&String>,
    ) -> Result<String, AllocError> {
        self.count = self.count.saturating_add(1);
        if self.failing == Some(self.count) {
            return Err(AllocError);
        }
        match self.answer {
            Answer::Joined => joined(alloc, left, right),
            Answer::Formatted => formatted(alloc, left, right),
            Answer::FirstCharacter => first_of(alloc, left, right),
        }
    }
}

/// The first character of the left word, or of the right one if there is no left one.
fn first_of(
    alloc: Global,
    left: Option<&String>,
    right: Option<&String>,
) -> Result<String, AllocError> {
    match (left, right) {
        (Some(word), _) | (None, Some(word)) => first_character(alloc, word),
        (None, None) => Ok(String::new(alloc)),
    }
}

/// The maps at whose words a closure is called.
#[derive(Clone, Copy)]
enum Kind {
    Inner(MapName, MapName),
    Left(MapName, MapName),
    Full(MapName, MapName),
    Values(MapName),
}

impl Kind {
    /// The call that a word names, on two maps, which may be one.
    fn read(call: &str, left: &str, right: &str) -> Result<Self, Fault> {
        let (left, right) = (MapName::read(left)?, MapName::read(right)?);
        match call {
            "try_inner_join" => Ok(Kind::Inner(left, right)),
            "try_left_join" => Ok(Kind::Left(left, right)),
            "try_full_join" => Ok(Kind::Full(left, right)),
            _ => Err(Fault::Bad),
        }
    }
}

/// The results of a closure that may fail at the words of maps.
#[derive(Clone, Copy)]
pub struct TryJoin {
    kind: Kind,
    closure: Closure,
}

impl TryJoin {
    /// The call that the words after `=` ask for.
    pub fn read(words: &[&str]) -> Result<Self, Fault> {
        let (kind, closure) = match words {
            ["try_transform_values", map, closure @ ..] => {
                (Kind::Values(MapName::read(map)?), closure)
            }
            [call, left, right, closure @ ..] => (Kind::read(call, left, right)?, closure),
            _ => return Err(Fault::Bad),
        };
        let closure = Closure::read(closure)?;
        Ok(TryJoin { kind, closure })
    }

    /// Makes the call.
    pub fn make<T: ScriptKey>(self, state: &State<T>) -> Result<Map<T>, AllocError> {
        let alloc = state.alloc;
        match self.kind {
            Kind::Inner(left, right) => inner(
                alloc,
                state.map(left),
                state.map(right),
                self.closure,
            ),
            Kind::Left(left, right) => left_of(
                alloc,
                state.map(left),
                state.map(right),
                self.closure,
            ),
            Kind::Full(left, right) => full(alloc, state.map(left), state.map(right), self.closure),
            Kind::Values(map) => values(alloc, state.map(map), self.closure),
        }
    }
}

/// The results of a closure where both maps have a word.
fn inner<T: ScriptKey>(
    alloc: Global,
    left: &Map<T>,
    right: &Map<T>,
    closure: Closure,
) -> Result<Map<T>, AllocError> {
    let mut closure = closure;
    left.try_inner_join(
        right,
        |left, right| closure.call(alloc, Some(left), Some(right)),
    )
}

/// The results of a closure where the left map has a word.
fn left_of<T: ScriptKey>(
    alloc: Global,
    left: &Map<T>,
    right: &Map<T>,
    closure: Closure,
) -> Result<Map<T>, AllocError> {
    let mut closure = closure;
    left.try_left_join(right, |left, right| closure.call(alloc, Some(left), right))
}

/// The results of a closure where at least one map has a word.
fn full<T: ScriptKey>(
    alloc: Global,
    left: &Map<T>,
    right: &Map<T>,
    closure: Closure,
) -> Result<Map<T>, AllocError> {
    let mut closure = closure;
    left.try_full_join(right, |left, right| closure.call(alloc, left, right))
}

/// The results of a closure at the words of one map.
fn values<T: ScriptKey>(
    alloc: Global,
    map: &Map<T>,
    closure: Closure,
) -> Result<Map<T>, AllocError> {
    let mut closure = closure;
    map.try_transform_values(|word| closure.call(alloc, Some(word), None))
}
