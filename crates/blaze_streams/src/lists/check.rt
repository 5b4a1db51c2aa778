//! A list of ranges, checked and then used as a stream.
ghost use Rattle.std.specs.Prelude.{◌≡◌, ◌↔◌, length, refl, Some, IfSome, IfOk, IfErr, IsOk};
ghost use Rattle.std.specs.Iterator.{item_count, UpTo};
ghost use Rattle.std.specs.Iterator.SizeHint.{IsWithinCount};
ghost use Rattle.blaze_entries.specs.Canonical.{IsOnePerRun};
ghost use Rattle.blaze_streams.specs.Violations.{IsFirstViolation};
ghost use Rattle.blaze_entries.specs.RangeSets.{shown_bare_range, shown_bare_ranges, unit_eq};
ghost use Rattle.blaze_entries.specs.Whole.{YieldsWholeFirst};

use crate::lists::canon::CanonIter;
use crate::lists::not_sorted::NotSorted;
use crate::lists::violations::first_violation;
use blaze_entries::SortedDisjoint;
use blaze_int::Integer;
use std::iter::FusedIterator;
use std::marker::Model;
use std::ops::RangeInclusive;

/// A stream over a list of ranges that was checked: it obeys the law of `SortedDisjoint`.
#[derive(Drop)]
pub struct CheckSortedDisjoint<T: Integer> {
    ranges: CanonIter<T>,
}

impl<T: Integer> Model for CheckSortedDisjoint<T> {
    ghost use Rattle.std.specs.Prelude.{List};
    ghost use Rattle.std.specs.Coded.{coded_list};
    ghost use Rattle.blaze_entries.specs.Entries.{Entry};
    ghost use Rattle.blaze_entries.specs.RangeSets.{bare_code};

    ghost Value = { List (Entry (Unit {0})) };

    ghost coded = { coded_list bare_code };

    ghost view = { λ s. s.ranges };
}

impl<T: Integer> CheckSortedDisjoint<T> {
    /// Returns a stream of the ranges, in order, if they obey the law of `SortedDisjoint`. Otherwise it returns the
    /// position of the first invalid range. A range is invalid if it is empty, or touches the previous range, or does
    /// not start above its end. It allocates nothing. O(n) with n ranges.
    pub fn new(ranges: Vec<RangeInclusive<T>>) -> Result<Self, NotSorted>
        ensures ok { IfOk result (λ stream. stream ≡ shown_bare_ranges T.rank ranges.items) }
        ensures accepted { IsOk result ↔ IsOnePerRun unit_eq (shown_bare_ranges T.rank ranges.items) }
        ensures refused { IfErr result
            (λ error. IsFirstViolation unit_eq (shown_bare_ranges T.rank ranges.items) error.at) }
    {
        match first_violation(ranges.as_slice()) {
            Some(at) => Err(NotSorted { at }),
            None => Ok(CheckSortedDisjoint {
                ranges: CanonIter::new(ranges),
            }),
        }
    }
}

impl<T: Integer> Iterator for CheckSortedDisjoint<T> {
    type Item = RangeInclusive<T>;

    ghost next_gives = { YieldsWholeFirst (λ r. r) (shown_bare_range T.rank) (λ s. s) };

    ghost remaining = { item_count (λ s. s) };

    fn next(&mut self) -> Option<RangeInclusive<T>> {
        self.ranges.next()
    }

    /// Returns the exact number of remaining ranges as both bounds. O(1).
    fn size_hint(&self) -> (usize, Option<usize>)
        ensures lower { IsWithinCount result.0 (item_count (λ s. s) self.now) }
        ensures upper { IfSome result.1 (UpTo (item_count (λ s. s) self.now)) }
        ensures exact { result ≡ (length self.now, Some (length self.now)) }
    {
        self.ranges.size_hint()
    }
}

impl<T: Integer> FusedIterator for CheckSortedDisjoint<T> {}

impl<T: Integer> SortedDisjoint<T> for CheckSortedDisjoint<T> {
    ghost left = { λ s. s };

    ghost least = { λ s. length s };

    fn in_hand(&self) {
        self.ranges.in_hand();
    }

    fn least_len(&self) -> usize {
        self.size_hint().0
    }

    ghost ready = { λ _. tt };

    ghost counted = { λ _. refl };

    ghost gives = { λ _ _ _ given. given.0 };
}
