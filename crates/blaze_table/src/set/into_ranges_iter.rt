//! An iterator over the owned ranges of a set.
ghost use Rattle.std.specs.Prelude.{◌≡◌, length, refl, Some, IfSome};
ghost use Rattle.std.specs.Iterator.{item_count, UpTo};
ghost use Rattle.std.specs.Iterator.SizeHint.{IsWithinCount};
ghost use Rattle.blaze_entries.specs.RangeSets.{shown_bare_range, IsRangeSet};
ghost use Rattle.blaze_entries.specs.Whole.{YieldsWholeFirst, YieldsWholeLast};

use crate::table::RangeTable;
use blaze_entries::{IntoIter, SortedDisjoint};
use blaze_int::Integer;
use std::iter::FusedIterator;
use std::marker::Model;
use std::ops::RangeInclusive;

/// An iterator over the owned ranges of a set, ascending. It is double-ended, allocates nothing, and each call takes
/// amortized O(1) time.
#[derive(Drop)]
pub struct IntoRangesIter<T: Integer> {
    entries: IntoIter<T, ()>,
}

impl<T: Integer> Model for IntoRangesIter<T> {
    ghost use Rattle.std.specs.Prelude.{List};
    ghost use Rattle.std.specs.Coded.{coded_list};
    ghost use Rattle.blaze_entries.specs.Entries.{Entry};
    ghost use Rattle.blaze_entries.specs.RangeSets.{bare_code, IsRangeSet};

    ghost Value = { List (Entry (Unit {0})) };

    ghost coded = { coded_list bare_code };

    ghost view = { λ s. s.entries };

    ghost invariant = { λ s. IsRangeSet T.low T.high s.entries };
}

impl<T: Integer> IntoRangesIter<T> {
    /// Returns an iterator over the owned ranges of a set's table.
    pub(crate) fn new(table: RangeTable<T, ()>) -> Self
        ensures { result ≡ table.entries }
    {
        table.in_hand();
        IntoRangesIter {
            entries: table.into_iter(),
        }
    }

    /// Does nothing. Its contract states that the remaining list is canonical and its ends are keys.
    pub fn in_hand(&self)
        ensures { IsRangeSet T.low T.high self.now }
    {
        let _ = &self.entries;
    }
}

impl<T: Integer> Iterator for IntoRangesIter<T> {
    type Item = RangeInclusive<T>;

    ghost next_gives = { YieldsWholeFirst (λ r. r) (shown_bare_range T.rank) (λ s. s) };

    ghost remaining = { item_count (λ s. s) };

    fn next(&mut self) -> Option<RangeInclusive<T>> {
        let (start, end, _) = self.entries.next()?;
        Some(start..=end)
    }

    /// Returns the exact number of remaining ranges as both bounds. O(1).
    fn size_hint(&self) -> (usize, Option<usize>)
        ensures lower { IsWithinCount result.0 (item_count (λ s. s) self.now) }
        ensures upper { IfSome result.1 (UpTo (item_count (λ s. s) self.now)) }
        ensures exact { result ≡ (length self.now, Some (length self.now)) }
    {
        let len = self.len();
        (len, Some(len))
    }
}

impl<T: Integer> DoubleEndedIterator for IntoRangesIter<T> {
    ghost next_back_gives = { YieldsWholeLast (λ r. r) (shown_bare_range T.rank) (λ s. s) };

    fn next_back(&mut self) -> Option<RangeInclusive<T>> {
        let (start, end, _) = self.entries.next_back()?;
        Some(start..=end)
    }
}

impl<T: Integer> ExactSizeIterator for IntoRangesIter<T> {
    fn len(&self) -> usize {
        self.entries.len()
    }
}

impl<T: Integer> FusedIterator for IntoRangesIter<T> {}

/// The ranges of a set are a stream.
impl<T: Integer> SortedDisjoint<T> for IntoRangesIter<T> {
    ghost left = { λ s. s };

    ghost least = { λ s. length s };

    fn in_hand(&self) {
        IntoRangesIter::in_hand(self);
    }

    fn least_len(&self) -> usize {
        self.size_hint().0
    }

    ghost ready = { λ _. tt };

    ghost counted = { λ _. refl };

    ghost gives = { λ _ _ _ given. given.0 };
}
