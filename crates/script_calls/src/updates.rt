//! `a ranges_update R N V`: a range of keys changed by a closure.
use script_words::{Fault, Map, ScriptKey, bounds, nth_call, value};
use std::alloc::{AllocError, Global};
use std::fmt::Write;
use std::ops::Bound;

/// The result of a closure at a piece of the range.
#[derive(Clone, Copy)]
enum Answer {
    Nothing,
    Same,
    Value,
    ValueAtGaps,
    Longer,
    InTurn,
    Swapped,
}

impl Answer {
    /// The result that a number stands for.
    fn read(word: &str) -> Result<Self, Fault> {
        match word {
            "0" => Ok(Answer::Nothing),
            "1" => Ok(Answer::Same),
            "2" => Ok(Answer::Value),
            "3" => Ok(Answer::ValueAtGaps),
            "4" => Ok(Answer::Longer),
            "5" => Ok(Answer::InTurn),
            "6" => Ok(Answer::Swapped),
            _ => Err(Fault::Bad),
        }
    }
}

/// A copy of a word, if there is one.
fn copy(word: Option<&String>) -> Result<Option<String>, AllocError> {
    match word {
        Some(word) => Ok(Some(word.clone()?)),
        None => Ok(None),
    }
}

/// A word with `+` and another one after it, or the other one alone.
fn longer(alloc: Global, word: Option<&String>, last: &String) -> Result<String, AllocError> {
    let mut words = String::new(alloc);
    if let Some(word) = word {
        words.push_str(word.as_str())?;
        words.push_str("+")?;
    }
    words.push_str(last.as_str())?;
    Ok(words)
}

/// A closure that is called once for each piece of a range.
#[derive(Drop)]
struct Closure {
    alloc: Global,
    answer: Answer,
    value: String,
    /// The call that must fail, from 1, if any.
    failing: Option<u64>,
    /// How many calls were made.
    count: u64,
}

impl Closure {
    /// Prints the argument of a call, after those before it, and returns the result of the call.
    fn call(
        &mut self,
        old: Option<&String>,
        reply: &mut String,
    ) -> Result<Option<String>, AllocError> {
        if self.count != 0 {
            reply.push_str("; ")?;
        }
        write!(reply, "{old:?}")?;
        self.count = self.count.saturating_add(1);
        if self.failing == Some(self.count) {
            return Err(AllocError);
        }
        self.new_value(old)
    }

    /// The value that a piece gets, or `None`.
    fn new_value(&self, old: Option<&String>) -> Result<Option<String>, AllocError> {
        match self.answer {
            Answer::Nothing => Ok(None),
            Answer::Same => copy(old),
            Answer::Value => copy(Some(&self.value)),
            Answer::ValueAtGaps => copy(Some(old.unwrap_or(&self.value))),
            Answer::Longer => Ok(Some(longer(self.alloc, old, &self.value)?)),
            Answer::InTurn => self.value_if(self.count % 2 == 1),
            Answer::Swapped => self.value_if(old.is_none()),
        }
    }

    /// The closure's own value, or `None`.
    fn value_if(&self, is_asked: bool) -> Result<Option<String>, AllocError> {
        copy(if is_asked { Some(&self.value) } else { None })
    }
}

/// A range of keys that a closure changes.
#[derive(Drop)]
pub struct Update<T: ScriptKey> {
    range: (Bound<T>, Bound<T>),
    closure: Closure,
}

impl<T: ScriptKey> Update<T> {
    /// The change that the words after a map's name ask for.
    pub fn read(alloc: Global, words: &[&str]) -> Result<Self, Fault> {
        let ["ranges_update", range, answer, text, failing @ ..] = words else {
            return Err(Fault::Bad);
        };
        let range = bounds(range)?;
        let closure = Closure {
            alloc,
            answer: Answer::read(answer)?,
            value: value(alloc, text)?,
            failing: nth_call(failing)?,
            count: 0,
        };
        Ok(Update { range, closure })
    }

    /// Makes the call, and prints the closure's arguments, separated by a semicolon and a space.
    pub fn make(self, map: &mut Map<T>, reply: &mut String) -> Result<(), AllocError> {
        let mut closure = self.closure;
        map.ranges_update(self.range, |old| closure.call(old, reply))
    }
}
