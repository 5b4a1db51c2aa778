//! `a run STEP; STEP; ..`: a list of steps.
use range_map_blaze::RangeSetBlaze;
use range_map_cli::{Answer, Refused, Step, run};
use script_words::{Fault, Map, MapName, ScriptKey, SetName, State, key, other_map, print, value};
use std::alloc::{AllocError, Global};

/// A step on a map whose values are words.
type WordStep<T> = Step<T, String>;

/// A step with one word, on a map of this name. A map or set that it names is copied.
fn step_with_word<T: ScriptKey>(
    state: &State<T>,
    map: MapName,
    call: &str,
    word: &str,
) -> Result<WordStep<T>, Fault> {
    match call {
        "or" | "and" | "minus" | "xor" => {
            let other = other_map(map, word)?;
            step_with_map(call, state.map(other).clone()?)
        }
        "and_set" | "minus_set" => {
            let set = SetName::read(word)?;
            step_with_set(call, state.clone_set(set)?)
        }
        "complement_with" => Ok(Step::ComplementWith(value(state.alloc, word)?)),
        _ => step_at_key(call, key(word)?),
    }
}

/// A step with another map.
fn step_with_map<T: ScriptKey>(call: &str, map: Map<T>) -> Result<WordStep<T>, Fault> {
    match call {
        "or" => Ok(Step::Or(map)),
        "and" => Ok(Step::And(map)),
        "minus" => Ok(Step::Minus(map)),
        _ => Ok(Step::Xor(map)),
    }
}

/// A step with a set.
fn step_with_set<T: ScriptKey>(call: &str, set: RangeSetBlaze<T>) -> Result<WordStep<T>, Fault> {
    match call {
        "and_set" => Ok(Step::AndSet(set)),
        _ => Ok(Step::MinusSet(set)),
    }
}

/// A step at a key.
fn step_at_key<T: ScriptKey>(call: &str, key: T) -> Result<WordStep<T>, Fault> {
    match call {
        "remove" => Ok(Step::Remove(key)),
        "keep_below" => Ok(Step::KeepBelow(key)),
        "keep_from" => Ok(Step::KeepFrom(key)),
        _ => Err(Fault::Bad),
    }
}

/// A step on the keys from one up to another.
fn step_on_range<T: ScriptKey>(
    call: &str,
    start: T,
    end: T,
    value: String,
) -> Result<WordStep<T>, Fault> {
    match call {
        "paint" => Ok(Step::Paint(start, end, value)),
        "fill" => Ok(Step::Fill(start, end, value)),
        _ => Err(Fault::Bad),
    }
}

/// A step of one word.
fn bare_step<T: ScriptKey>(call: &str) -> Result<WordStep<T>, Fault> {
    match call {
        "pop_first" => Ok(Step::PopFirst),
        "pop_last" => Ok(Step::PopLast),
        "clear" => Ok(Step::Clear),
        _ => Err(Fault::Bad),
    }
}

/// The step that words ask for, on a map of this name.
fn read_step<T: ScriptKey>(
    state: &State<T>,
    map: MapName,
    words: &[&str],
) -> Result<WordStep<T>, Fault> {
    match words {
        [call] => bare_step(call),
        [call, word] => step_with_word(state, map, call, word),
        ["insert", word, text] => Ok(Step::Insert(key(word)?, value(state.alloc, text)?)),
        [call, start, end, text] => {
            step_on_range(call, key(start)?, key(end)?, value(state.alloc, text)?)
        }
        _ => Err(Fault::Bad),
    }
}

/// The steps of some words. A word that ends with `;` ends a step.
fn read_steps<T: ScriptKey>(
    state: &State<T>,
    map: MapName,
    words: &[&str],
) -> Result<Vec<WordStep<T>>, Fault> {
    let mut steps = Vec::new(state.alloc);
    if words.is_empty() {
        return Ok(steps);
    }
    let mut step = Vec::new(state.alloc);
    for word in words {
        match word.strip_suffix(';') {
            Some(last) => {
                step.push(last)?;
                steps.push(read_step(state, map, step.as_slice())?)?;
                step.clear();
            }
            None => step.push(*word)?,
        }
    }
    steps.push(read_step(state, map, step.as_slice())?)?;
    Ok(steps)
}

/// A list of steps on a map.
#[derive(Drop)]
pub struct Run<T: ScriptKey> {
    steps: Vec<WordStep<T>>,
}

impl<T: ScriptKey> Run<T> {
    /// The steps of the words after a map's name, with copies of the maps and sets that they name. If an allocation fails, no
    /// step is made.
    pub fn read(state: &State<T>, map: MapName, words: &[&str]) -> Result<Self, Fault> {
        let ["run", rest @ ..] = words else {
            return Err(Fault::Bad);
        };
        match read_steps(state, map, rest) {
            Ok(steps) => Ok(Run { steps }),
            Err(Fault::Refused) => Err(Fault::RefusedAt(0)),
            Err(fault) => Err(fault),
        }
    }

    /// Makes the call on a map, and prints the answers.
    pub fn make(self, alloc: Global, map: &mut Map<T>, reply: &mut String) -> Result<(), Fault> {
        match run(alloc, map, self.steps) {
            Ok(answers) => Ok(print_answers(answers.as_slice(), reply)?),
            Err(Refused { at }) => Err(Fault::RefusedAt(at)),
        }
    }
}

/// Prints answers, separated by a semicolon and a space.
fn print_answers<T: ScriptKey>(
    answers: &[Answer<T, String>],
    reply: &mut String,
) -> Result<(), AllocError> {
    let mut lead = "";
    for answer in answers {
        reply.push_str(lead)?;
        print(answer, reply)?;
        lead = "; ";
    }
    Ok(())
}
