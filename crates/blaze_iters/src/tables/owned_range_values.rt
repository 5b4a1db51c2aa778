//! An iterator over a table's owned entries, with owned values.
ghost use Rattle.std.specs.Prelude.{◌≡◌, length, refl, Some, IfSome};
ghost use Rattle.std.specs.Iterator.{item_count, UpTo};
ghost use Rattle.std.specs.Iterator.SizeHint.{IsWithinCount};
ghost use Rattle.blaze_streams.specs.Ranges.{shown_range};
ghost use Rattle.blaze_entries.specs.Whole.{YieldsWholeFirst};

use blaze_int::Integer;
use blaze_streams::{Owned, SortedDisjointMap};
use blaze_table::{IntoIter, RangeTable};
use std::iter::FusedIterator;
use std::marker::Model;
use std::ops::RangeInclusive;

/// An iterator over a table's owned entries, ascending: each range with its own value.
#[derive(Drop)]
pub struct OwnedRangeValuesIter<T: Integer, V: Eq + Drop> {
    entries: IntoIter<T, V>,
}

impl<T: Integer, V: Eq + Drop> Model for OwnedRangeValuesIter<T, V> {
    ghost use Rattle.std.specs.Prelude.{List};
    ghost use Rattle.std.specs.Coded.{coded_list};
    ghost use Rattle.blaze_entries.specs.Entries.{Entry, entry_code};
    ghost use Rattle.blaze_entries.specs.Canonical.{IsRangeMap};

    ghost Value = { List (Entry V) };

    ghost coded = { coded_list (entry_code V.code) };

    ghost view = { λ s. s.entries };

    ghost invariant = { λ s. IsRangeMap V.eq T.low T.high s.entries };
}

impl<T: Integer, V: Eq + Drop> OwnedRangeValuesIter<T, V> {
    /// Returns an iterator over the table's entries. Neither this call nor `next` allocates, and no value is cloned.
    /// All n entries take O(n) time.
    pub fn new(table: RangeTable<T, V>) -> Self
        ensures { result ≡ table.entries }
    {
        table.in_hand();
        OwnedRangeValuesIter {
            entries: table.into_iter(),
        }
    }
}

impl<T: Integer, V: Eq + Drop> Iterator for OwnedRangeValuesIter<T, V> {
    type Item = (RangeInclusive<T>, Owned<V>);

    ghost next_gives = { YieldsWholeFirst (λ p. p.0) (shown_range T.rank (λ o. o.0)) (λ s. s) };

    ghost remaining = { item_count (λ s. s) };

    fn next(&mut self) -> Option<(RangeInclusive<T>, Owned<V>)> {
        let (start, end, value) = self.entries.next()?;
        Some((start..=end, Owned(value)))
    }

    /// Returns the exact number of remaining entries as both bounds. O(1).
    fn size_hint(&self) -> (usize, Option<usize>)
        ensures lower { IsWithinCount result.0 (item_count (λ s. s) self.now) }
        ensures upper { IfSome result.1 (UpTo (item_count (λ s. s) self.now)) }
        ensures exact { result ≡ (length self.now, Some (length self.now)) }
    {
        let len = self.entries.len();
        (len, Some(len))
    }
}

impl<T: Integer, V: Eq + Drop> FusedIterator for OwnedRangeValuesIter<T, V> {}

impl<T: Integer, V: Eq + Clone> SortedDisjointMap<T, Owned<V>> for OwnedRangeValuesIter<T, V> {
    ghost left = { λ s. s };

    ghost least = { λ s. length s };

    fn in_hand(&self) {
        let _ = &self.entries;
    }

    fn least_len(&self) -> usize {
        self.size_hint().0
    }

    ghost ready = { λ _. tt };

    ghost counted = { λ _. refl };

    ghost gives = { λ _ _ _ given. given.0 };
}
