//! The first and last keys of entries.
ghost use Rattle.std.specs.Prelude.{List};
ghost use Rattle.blaze_entries.specs.Entries.{Entry};
ghost use Rattle.blaze_iters.specs.KeyRanges.{TakesEnds, TakesLastEnds};

use blaze_int::Integer;
use blaze_table::{IntoIter, Iter};

/// A double-ended iterator over entries, of which only the first and last keys are used.
pub trait EntryEnds<T: Integer>: Drop {
    /// The type of the entries' values.
    type Value: Eq;

    // The remaining entries.
    ghost left: { Self → List (Entry Self.Value) };

    /// Takes the first entry and returns its first and last key.
    fn next_ends(&mut self) -> Option<(T, T)>
        ensures { TakesEnds T.rank result (left self.old) (left self.new) };

    /// Takes the last entry and returns its first and last key.
    fn next_ends_back(&mut self) -> Option<(T, T)>
        ensures { TakesLastEnds T.rank result (left self.old) (left self.new) };
}

impl<'a, T: Integer, V: Eq> EntryEnds<T> for Iter<'a, T, V> {
    type Value = V;

    ghost left = { λ s. s };

    fn next_ends(&mut self) -> Option<(T, T)> {
        let (start, end, _) = self.next()?;
        Some((start, end))
    }

    fn next_ends_back(&mut self) -> Option<(T, T)> {
        let (start, end, _) = self.next_back()?;
        Some((start, end))
    }
}

impl<T: Integer, V: Eq + Drop> EntryEnds<T> for IntoIter<T, V> {
    type Value = V;

    ghost left = { λ s. s };

    fn next_ends(&mut self) -> Option<(T, T)> {
        let (start, end, _) = self.next()?;
        Some((start, end))
    }

    fn next_ends_back(&mut self) -> Option<(T, T)> {
        let (start, end, _) = self.next_back()?;
        Some((start, end))
    }
}
