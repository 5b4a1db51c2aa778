//! A valid list of ranges, as a stream.
ghost use Rattle.std.specs.Prelude.{◌≡◌, length, refl, Some, IfSome};
ghost use Rattle.std.specs.Iterator.{item_count, UpTo};
ghost use Rattle.std.specs.Iterator.SizeHint.{IsWithinCount};
ghost use Rattle.blaze_entries.specs.RangeSets.{shown_bare_range, shown_bare_ranges, IsRangeSet};
ghost use Rattle.blaze_entries.specs.Whole.{YieldsWholeFirst};

use blaze_entries::SortedDisjoint;
use blaze_int::Integer;
use std::iter::FusedIterator;
use std::marker::Model;
use std::ops::RangeInclusive;
use std::vec;

/// A stream over a list of ranges that obeys the law of `SortedDisjoint`.
#[derive(Drop)]
pub struct CanonIter<T: Integer> {
    rest: vec::IntoIter<RangeInclusive<T>>,
}

impl<T: Integer> Model for CanonIter<T> {
    ghost use Rattle.std.specs.Prelude.{List};
    ghost use Rattle.std.specs.Coded.{coded_list};
    ghost use Rattle.std.specs.Vec.Iter.{into_iter_items};
    ghost use Rattle.blaze_entries.specs.Entries.{Entry};
    ghost use Rattle.blaze_entries.specs.RangeSets.{bare_code, shown_bare_ranges, IsRangeSet};

    ghost Value = { List (Entry (Unit {0})) };

    ghost coded = { coded_list bare_code };

    ghost view = { λ s. shown_bare_ranges T.rank (into_iter_items s.rest) };

    ghost invariant = { λ s. IsRangeSet T.low T.high
        (shown_bare_ranges T.rank (into_iter_items s.rest)) };
}

impl<T: Integer> CanonIter<T> {
    /// Returns a stream of the ranges, in order. It requires that they obey the law of `SortedDisjoint`. It allocates
    /// nothing. O(1).
    pub fn new(ranges: Vec<RangeInclusive<T>>) -> Self
        requires range_set { IsRangeSet T.low T.high (shown_bare_ranges T.rank ranges.items) }
        ensures { result ≡ shown_bare_ranges T.rank ranges.items }
    {
        CanonIter {
            rest: ranges.into_iter(),
        }
    }
}

impl<T: Integer> Iterator for CanonIter<T> {
    type Item = RangeInclusive<T>;

    ghost next_gives = { YieldsWholeFirst (λ r. r) (shown_bare_range T.rank) (λ s. s) };

    ghost remaining = { item_count (λ s. s) };

    fn next(&mut self) -> Option<RangeInclusive<T>> {
        let (start, end) = self.rest.next()?.into_inner();
        Some(start..=end)
    }

    /// Returns the exact number of remaining ranges as both bounds. O(1).
    fn size_hint(&self) -> (usize, Option<usize>)
        ensures lower { IsWithinCount result.0 (item_count (λ s. s) self.now) }
        ensures upper { IfSome result.1 (UpTo (item_count (λ s. s) self.now)) }
        ensures exact { result ≡ (length self.now, Some (length self.now)) }
    {
        let len = self.rest.len();
        (len, Some(len))
    }
}

impl<T: Integer> FusedIterator for CanonIter<T> {}

impl<T: Integer> SortedDisjoint<T> for CanonIter<T> {
    ghost left = { λ s. s };

    ghost least = { λ s. length s };

    fn in_hand(&self) {
        let _ = &self.rest;
    }

    fn least_len(&self) -> usize {
        self.size_hint().0
    }

    ghost ready = { λ _. tt };

    ghost counted = { λ _. refl };

    ghost gives = { λ _ _ _ given. given.0 };
}
