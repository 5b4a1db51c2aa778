//! `a iter W` and kin: calls of one iterator.
use range_map_blaze::names_a_key;
use script_words::{Fault, Map, MapName, ScriptKey, State, bounds};
use std::alloc::{AllocError, Global};
use std::fmt::{Debug, Write};
use std::ops::Bound;

/// A call of an iterator.
#[derive(Clone, Copy, PartialEq, Eq)]
enum Step {
    Next,
    NextBack,
    SizeHint,
}

/// The calls of a word: one or more of `f`, `b` and `h`.
fn steps(alloc: Global, word: &str) -> Result<Vec<Step>, Fault> {
    let mut steps = Vec::new(alloc);
    for letter in word.bytes() {
        let step = match letter {
            b'f' => Step::Next,
            b'b' => Step::NextBack,
            b'h' => Step::SizeHint,
            _ => return Err(Fault::Bad),
        };
        steps.push(step)?;
    }
    if steps.is_empty() {
        return Err(Fault::Bad);
    }
    Ok(steps)
}

/// An iterator of a map.
#[derive(Drop)]
enum Kind<T: ScriptKey> {
    Borrowed(Over),
    Taking(Over),
    Range((Bound<T>, Bound<T>)),
    Overlapping((Bound<T>, Bound<T>)),
    Within((Bound<T>, Bound<T>)),
    Gaps((Bound<T>, Bound<T>)),
}

/// What an iterator gives.
#[derive(Clone, Copy, PartialEq, Eq)]
enum Over {
    Pairs,
    Keys,
    Values,
    RangeValues,
    Ranges,
}

impl<T: ScriptKey> Kind<T> {
    fn read(words: &[&str]) -> Result<Self, Fault> {
        match words {
            [call] => match call.strip_prefix("into_") {
                Some(call) => Ok(Kind::Taking(Over::read(call)?)),
                None => Ok(Kind::Borrowed(Over::read(call)?)),
            },
            ["range", range] => Ok(Kind::Range(bounds(range)?)),
            ["overlapping", range] => Ok(Kind::Overlapping(bounds(range)?)),
            ["within", range] => Ok(Kind::Within(bounds(range)?)),
            ["gaps", range] => Ok(Kind::Gaps(bounds(range)?)),
            _ => Err(Fault::Bad),
        }
    }
}

impl Over {
    fn read(word: &str) -> Result<Self, Fault> {
        match word {
            "iter" => Ok(Over::Pairs),
            "keys" => Ok(Over::Keys),
            "values" => Ok(Over::Values),
            "range_values" => Ok(Over::RangeValues),
            "ranges" => Ok(Over::Ranges),
            _ => Err(Fault::Bad),
        }
    }

    /// Makes calls of an iterator over a borrowed map.
    fn walk_borrowed<T: ScriptKey>(
        self,
        map: &Map<T>,
        steps: &[Step],
        reply: &mut String,
    ) -> Result<(), AllocError> {
        match self {
            Over::Pairs => walk(map.iter(), steps, reply),
            Over::Keys => walk(map.keys(), steps, reply),
            Over::Values => walk_values(map, map.values(), steps, reply),
            Over::RangeValues => walk(map.range_values(), steps, reply),
            Over::Ranges => walk(map.ranges(), steps, reply),
        }
    }

    /// Makes calls of an iterator that takes the map.
    fn walk_taking<T: ScriptKey>(
        self,
        map: Map<T>,
        steps: &[Step],
        reply: &mut String,
    ) -> Result<(), AllocError> {
        match self {
            Over::Pairs => walk_owned(map.into_iter(), steps, reply),
            Over::Keys => walk(map.into_keys(), steps, reply),
            Over::Values => walk_owned(map.into_values(), steps, reply),
            Over::RangeValues => walk(map.into_range_values()?, steps, reply),
            Over::Ranges => walk(map.into_ranges(), steps, reply),
        }
    }
}

/// Calls of an iterator of a map.
#[derive(Drop)]
pub struct Iterate<T: ScriptKey> {
    kind: Kind<T>,
    steps: Vec<Step>,
}

impl<T: ScriptKey> Iterate<T> {
    /// The iterator and the calls that the words after a map's name ask for.
    pub fn read(alloc: Global, words: &[&str]) -> Result<Self, Fault> {
        let [call @ .., calls] = words else {
            return Err(Fault::Bad);
        };
        let kind = Kind::read(call)?;
        let steps = steps(alloc, calls)?;
        Ok(Iterate { kind, steps })
    }

    /// Makes the iterator and its calls, and prints their results, separated by `; `.
    pub fn make(
        self,
        name: MapName,
        state: &mut State<T>,
        reply: &mut String,
    ) -> Result<(), Fault> {
        let steps = self.steps.as_slice();
        match self.kind {
            Kind::Borrowed(over) => Ok(over.walk_borrowed(state.map(name), steps, reply)?),
            Kind::Taking(over) => Ok(over.walk_taking(state.take_map(name), steps, reply)?),
            Kind::Range(range) => walk_range(state.map(name), range, steps, reply),
            Kind::Overlapping(range) => Ok(walk(state.map(name).overlapping(range), steps, reply)?),
            Kind::Within(range) => Ok(walk(state.map(name).within(range), steps, reply)?),
            Kind::Gaps(range) => Ok(walk(state.map(name).gaps(range), steps, reply)?),
        }
    }
}

/// Makes calls of the iterator over the pairs within bounds. Bounds that name no key are an error of the script.
fn walk_range<T: ScriptKey>(
    map: &Map<T>,
    range: (Bound<T>, Bound<T>),
    steps: &[Step],
    reply: &mut String,
) -> Result<(), Fault> {
    if !names_a_key(&range) {
        return Err(Fault::Bad);
    }
    Ok(walk_owned(map.range(range)?, steps, reply)?)
}

/// Makes calls of an iterator.
fn walk<X: Debug + Drop, I: DoubleEndedIterator<Item = X> + Drop>(
    iter: I,
    steps: &[Step],
    reply: &mut String,
) -> Result<(), AllocError>
    requires next { (s : I) → I.can_next s }
    requires next_back { (s : I) → I.can_next_back s }
{
    let mut iter = iter;
    let mut lead = "";
    for step in steps {
        reply.push_str(lead)?;
        match step {
            Step::Next => write!(reply, "{:?}", iter.next())?,
            Step::NextBack => write!(reply, "{:?}", iter.next_back())?,
            Step::SizeHint => write!(reply, "{:?}", iter.size_hint())?,
        }
        lead = "; ";
    }
    Ok(())
}

/// Makes calls of an iterator whose items borrow the map.
fn walk_values<'a, T: ScriptKey, I: DoubleEndedIterator<Item = &'a String> + Drop>(
    _borrowed: &'a Map<T>,
    iter: I,
    steps: &[Step],
    reply: &mut String,
) -> Result<(), AllocError>
    requires next { (s : I) → I.can_next s }
    requires next_back { (s : I) → I.can_next_back s }
{
    walk(iter, steps, reply)
}

/// Makes calls of an iterator whose items are `Result`s. It prints an item without its `Ok`, and an `Err` as `refused`.
fn walk_owned<X: Debug + Drop, I: DoubleEndedIterator<Item = Result<X, AllocError>> + Drop>(
    iter: I,
    steps: &[Step],
    reply: &mut String,
) -> Result<(), AllocError>
    requires next { (s : I) → I.can_next s }
    requires next_back { (s : I) → I.can_next_back s }
{
    let mut iter = iter;
    let mut lead = "";
    for step in steps {
        reply.push_str(lead)?;
        match step {
            Step::Next => print_item(iter.next(), reply)?,
            Step::NextBack => print_item(iter.next_back(), reply)?,
            Step::SizeHint => write!(reply, "{:?}", iter.size_hint())?,
        }
        lead = "; ";
    }
    Ok(())
}

/// Prints an item that is a `Result`.
fn print_item<X: Debug + Drop>(
    item: Option<Result<X, AllocError>>,
    reply: &mut String,
) -> Result<(), AllocError> {
    match item {
        Some(Ok(item)) => write!(reply, "{:?}", Some(item)),
        Some(Err(_)) => reply.push_str("Some(refused)"),
        None => reply.push_str("None"),
    }
}
