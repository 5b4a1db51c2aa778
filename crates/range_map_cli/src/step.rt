//! Steps on a map, and their answers.
ghost use Rattle.std.specs.Prelude.{◌++◌, Some, codes};
ghost use Rattle.std.specs.Fmt.{decimal};

use blaze_int::Integer;
use range_map_blaze::{RangeMapBlaze, RangeSetBlaze};
use std::error::Error;
use std::fmt::{self, Display, Formatter};

/// A call that changes a map; `run` does it. If the first key of a range is above the last, the range is empty.
#[derive(Drop)]
pub enum Step<T: Integer, V: Eq> {
    /// Sets the value of every key from the first key to the second.
    Paint(T, T, V),
    /// Sets the value of every key from the first key to the second that has none.
    Fill(T, T, V),
    /// Sets the value of a key.
    Insert(T, V),
    /// Removes a key.
    Remove(T),
    /// Removes the least key that has a value.
    PopFirst,
    /// Removes the greatest key that has a value.
    PopLast,
    /// Removes all keys.
    Clear,
    /// Keeps the keys below the given one.
    KeepBelow(T),
    /// Keeps the given key and those above it.
    KeepFrom(T),
    /// Sets the values of another map's keys to those of that map.
    Or(RangeMapBlaze<T, V>),
    /// Keeps the keys that have a value in another map too, with its values.
    And(RangeMapBlaze<T, V>),
    /// Removes the keys that have a value in another map.
    Minus(RangeMapBlaze<T, V>),
    /// Keeps the keys that have a value in exactly one of the map and another.
    Xor(RangeMapBlaze<T, V>),
    /// Keeps the keys of a set.
    AndSet(RangeSetBlaze<T>),
    /// Removes the keys of a set.
    MinusSet(RangeSetBlaze<T>),
    /// Sets the value of every key that has none, and removes the others.
    ComplementWith(V),
}

/// The result of a step.
#[derive(Clone, Copy, Debug, Drop, PartialEq, Eq)]
pub enum Answer<T, V> {
    /// For a paint or a fill: whether the number of keys with a value changed.
    Wrote(bool),
    /// For an insertion or a removal: the value that the key had.
    Old(Option<V>),
    /// For a pop: the key that was removed, with its value.
    Popped(Option<(T, V)>),
    /// For every other step.
    Done,
}

/// An allocation of a step failed.
#[derive(Clone, Copy, Debug, PartialEq, Eq)]
pub struct Refused {
    /// How many steps were done before it.
    pub at: usize,
}

/// Writes `step 3 was refused memory`, with the position of the step, from 0.
impl Display for Refused {
    ghost output = { λ e. Some (codes "step " ++ decimal e.at ++ codes " was refused memory") };

    fn fmt<W: fmt::Write>(&self, f: &mut Formatter<W>) -> fmt::Result {
        write!(f, "step {} was refused memory", self.at)
    }
}

impl Error for Refused {}
