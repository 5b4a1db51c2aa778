//! An iterator over the ranges of a borrowed set.
ghost use Rattle.std.specs.Prelude.{◌≡◌, length, refl, Some, IfSome};
ghost use Rattle.std.specs.Iterator.{item_count, UpTo};
ghost use Rattle.std.specs.Iterator.SizeHint.{IsWithinCount};
ghost use Rattle.blaze_entries.specs.RangeSets.{shown_bare_range, IsRangeSet};
ghost use Rattle.blaze_entries.specs.Whole.{YieldsWholeFirst, YieldsWholeLast};

use crate::table::RangeTable;
use blaze_entries::{Iter, SortedDisjoint};
use blaze_int::Integer;
use std::iter::FusedIterator;
use std::marker::Model;
use std::ops::RangeInclusive;

/// An iterator over the ranges of a borrowed set, ascending. It is double-ended, allocates nothing, and each call takes
/// amortized O(1) time.
#[derive(Drop)]
pub struct RangesIter<'a, T: Integer> {
    entries: Iter<'a, T, ()>,
}

impl<'a, T: Integer> Model for RangesIter<'a, T> {
    ghost use Rattle.std.specs.Prelude.{List};
    ghost use Rattle.std.specs.Coded.{coded_list};
    ghost use Rattle.blaze_entries.specs.Entries.{Entry};
    ghost use Rattle.blaze_entries.specs.RangeSets.{bare_code, IsRangeSet};

    ghost Value = { List (Entry (Unit {0})) };

    ghost coded = { coded_list bare_code };

    ghost view = { λ s. s.entries };

    ghost invariant = { λ s. IsRangeSet T.low T.high s.entries };
}

impl<'a, T: Integer> RangesIter<'a, T> {
    /// Returns an iterator over the ranges of a set's borrowed table.
    pub(crate) fn new(table: &'a RangeTable<T, ()>) -> Self
        ensures { result ≡ table.now.entries }
    {
        table.in_hand();
        RangesIter {
            entries: table.iter(),
        }
    }

    /// Does nothing. Its contract states that the remaining list is canonical and its ends are keys.
    pub fn in_hand(&self)
        ensures { IsRangeSet T.low T.high self.now }
    {
        let _ = &self.entries;
    }
}

impl<'a, T: Integer> Iterator for RangesIter<'a, T> {
    type Item = RangeInclusive<T>;

    ghost next_gives = { YieldsWholeFirst (λ r. r) (shown_bare_range T.rank) (λ s. s) };

    ghost remaining = { item_count (λ s. s) };

    fn next(&mut self) -> Option<RangeInclusive<T>> {
        let (start, end, _) = self.entries.next()?;
        Some(start..=end)
    }

    /// Returns the exact number of remaining ranges as both bounds. O(1).
    fn size_hint(&self) -> (usize, Option<usize>)
        ensures lower { IsWithinCount result.0 (item_count (λ s. s) self.now) }
        ensures upper { IfSome result.1 (UpTo (item_count (λ s. s) self.now)) }
        ensures exact { result ≡ (length self.now, Some (length self.now)) }
    {
        let len = self.len();
        (len, Some(len))
    }
}

impl<'a, T: Integer> DoubleEndedIterator for RangesIter<'a, T> {
    ghost next_back_gives = { YieldsWholeLast (λ r. r) (shown_bare_range T.rank) (λ s. s) };

    fn next_back(&mut self) -> Option<RangeInclusive<T>> {
        let (start, end, _) = self.entries.next_back()?;
        Some(start..=end)
    }
}

impl<'a, T: Integer> ExactSizeIterator for RangesIter<'a, T> {
    fn len(&self) -> usize {
        self.entries.len()
    }
}

impl<'a, T: Integer> FusedIterator for RangesIter<'a, T> {}

/// The ranges of a set are a stream.
impl<'a, T: Integer> SortedDisjoint<T> for RangesIter<'a, T> {
    ghost left = { λ s. s };

    ghost least = { λ s. length s };

    fn in_hand(&self) {
        RangesIter::in_hand(self);
    }

    fn least_len(&self) -> usize {
        self.size_hint().0
    }

    ghost ready = { λ _. tt };

    ghost counted = { λ _. refl };

    ghost gives = { λ _ _ _ given. given.0 };
}
