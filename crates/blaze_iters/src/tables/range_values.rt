//! An iterator over a borrowed table's entries, as ranges with values.
ghost use Rattle.std.specs.Prelude.{◌≡◌, length, refl, Some, IfSome};
ghost use Rattle.std.specs.Iterator.{item_count, UpTo};
ghost use Rattle.std.specs.Iterator.SizeHint.{IsWithinCount};
ghost use Rattle.blaze_streams.specs.Ranges.{shown_range};
ghost use Rattle.blaze_entries.specs.Whole.{YieldsWholeFirst, YieldsWholeLast};

use blaze_int::Integer;
use blaze_streams::{BothEnds, SortedDisjointMap, ValueCarrier};
use blaze_table::{Iter, RangeTable};
use std::iter::FusedIterator;
use std::marker::Model;
use std::ops::RangeInclusive;

/// An iterator over a borrowed table's entries, ascending: each range with a reference to its value. It is
/// double-ended.
#[derive(Drop)]
pub struct RangeValuesIter<'a, T: Integer, V: Eq> {
    entries: Iter<'a, T, V>,
    // The type of this field makes the keys and the values live as long as the borrow of the table.
    table: &'a RangeTable<T, V>,
}

impl<'a, T: Integer, V: Eq> Model for RangeValuesIter<'a, T, V> {
    ghost use Rattle.std.specs.Prelude.{List};
    ghost use Rattle.std.specs.Coded.{coded_list};
    ghost use Rattle.blaze_entries.specs.Entries.{Entry, entry_code};
    ghost use Rattle.blaze_entries.specs.Canonical.{IsRangeMap};

    ghost Value = { List (Entry V) };

    ghost coded = { coded_list (entry_code V.code) };

    ghost view = { λ s. s.entries };

    ghost invariant = { λ s. IsRangeMap V.eq T.low T.high s.entries };
}

impl<'a, T: Integer, V: Eq> RangeValuesIter<'a, T, V> {
    /// Returns an iterator over the table's entries. It allocates nothing. All n entries take O(n) time.
    pub fn new(table: &'a RangeTable<T, V>) -> Self
        ensures { result ≡ table.now.entries }
    {
        table.in_hand();
        RangeValuesIter {
            entries: table.iter(),
            table,
        }
    }
}

impl<'a, T: Integer, V: Eq> Iterator for RangeValuesIter<'a, T, V> {
    type Item = (RangeInclusive<T>, &'a V);

    ghost next_gives = { YieldsWholeFirst (λ p. p.0) (shown_range T.rank (λ v. v.now)) (λ s. s) };

    ghost remaining = { item_count (λ s. s) };

    fn next(&mut self) -> Option<(RangeInclusive<T>, &'a V)> {
        let (start, end, value) = self.entries.next()?;
        Some((start..=end, value))
    }

    /// Returns the exact number of remaining entries as both bounds. O(1).
    fn size_hint(&self) -> (usize, Option<usize>)
        ensures lower { IsWithinCount result.0 (item_count (λ s. s) self.now) }
        ensures upper { IfSome result.1 (UpTo (item_count (λ s. s) self.now)) }
        ensures exact { result ≡ (length self.now, Some (length self.now)) }
    {
        let len = self.len();
        (len, Some(len))
    }
}

impl<'a, T: Integer, V: Eq> DoubleEndedIterator for RangeValuesIter<'a, T, V> {
    ghost next_back_gives = { YieldsWholeLast (λ p. p.0)
        (shown_range T.rank (λ v. v.now)) (λ s. s) };

    fn next_back(&mut self) -> Option<(RangeInclusive<T>, &'a V)> {
        let (start, end, value) = self.entries.next_back()?;
        Some((start..=end, value))
    }
}

impl<'a, T: Integer, V: Eq> ExactSizeIterator for RangeValuesIter<'a, T, V> {
    fn len(&self) -> usize {
        self.entries.len()
    }
}

impl<'a, T: Integer, V: Eq> FusedIterator for RangeValuesIter<'a, T, V> {}

impl<'a, T: Integer, V: Eq + Clone> SortedDisjointMap<T, &'a V> for RangeValuesIter<'a, T, V> {
    ghost left = { λ s. s };

    ghost least = { λ s. length s };

    fn in_hand(&self) {
        let _ = &self.entries;
    }

    fn least_len(&self) -> usize {
        self.size_hint().0
    }

    fn seek(&mut self, _key: T) {}

    ghost ready = { λ _. tt };

    ghost counted = { λ _. refl };

    ghost gives = { λ _ _ _ given. given.0 };
}

impl<'a, T: Integer, V: Eq + Clone> BothEnds<T, &'a V> for RangeValuesIter<'a, T, V> {
    ghost ready_back = { λ _. tt };

    ghost gives_back = { λ _ _ _ given. given.0 };
}
