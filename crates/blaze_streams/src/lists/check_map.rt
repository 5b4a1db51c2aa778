//! A list of ranges with values, checked and then used as a stream.
ghost use Rattle.std.specs.Prelude.{◌≡◌, ◌↔◌, length, refl, Some, IfSome, IfOk, IfErr, IsOk};
ghost use Rattle.std.specs.Iterator.{item_count, UpTo};
ghost use Rattle.std.specs.Iterator.SizeHint.{IsWithinCount};
ghost use Rattle.blaze_entries.specs.Canonical.{IsOnePerRun};
ghost use Rattle.blaze_streams.specs.Violations.{IsFirstViolation};
ghost use Rattle.blaze_streams.specs.RangeLists.{shown_ranges};
ghost use Rattle.blaze_streams.specs.Ranges.{shown_range};
ghost use Rattle.blaze_entries.specs.Whole.{YieldsWholeFirst};

use crate::carrier::ValueCarrier;
use crate::lists::canon_map::CanonMapIter;
use crate::lists::not_sorted::NotSorted;
use crate::lists::violations::first_violation;
use crate::sorted_disjoint_map::SortedDisjointMap;
use blaze_int::Integer;
use std::iter::FusedIterator;
use std::marker::Model;
use std::ops::RangeInclusive;

/// A stream over a list of ranges with carriers that was checked: it obeys the law of `SortedDisjointMap`.
#[derive(Drop)]
pub struct CheckSortedDisjointMap<T: Integer, VC: ValueCarrier> {
    items: CanonMapIter<T, VC>,
}

impl<T: Integer, VC: ValueCarrier> Model for CheckSortedDisjointMap<T, VC> {
    ghost use Rattle.std.specs.Prelude.{List};
    ghost use Rattle.std.specs.Coded.{coded_list};
    ghost use Rattle.blaze_entries.specs.Entries.{Entry, entry_code};

    ghost Value = { List (Entry VC.Value) };

    ghost coded = { coded_list (entry_code VC.Value.code) };

    ghost view = { λ s. s.items };
}

impl<T: Integer, VC: ValueCarrier> CheckSortedDisjointMap<T, VC> {
    /// Returns a stream of the items, in order, if they obey the law of `SortedDisjointMap`. Otherwise it returns the
    /// position of the first invalid item. It allocates nothing. O(n) with n items. An item is invalid in three cases:
    ///
    /// - its range is empty;
    /// - its range does not start above the end of the previous one;
    /// - its range touches the previous one, and the values are equal.
    pub fn new(items: Vec<(RangeInclusive<T>, VC)>) -> Result<Self, NotSorted>
        ensures ok { IfOk result (λ stream. stream ≡ shown_ranges T.rank VC.shown items.items) }
        ensures accepted { IsOk result ↔ IsOnePerRun VC.Value.eq
            (shown_ranges T.rank VC.shown items.items) }
        ensures refused { IfErr result (λ error. IsFirstViolation VC.Value.eq
            (shown_ranges T.rank VC.shown items.items) error.at) }
    {
        match first_violation(items.as_slice()) {
            Some(at) => Err(NotSorted { at }),
            None => Ok(CheckSortedDisjointMap {
                items: CanonMapIter::new(items),
            }),
        }
    }
}

impl<T: Integer, VC: ValueCarrier> Iterator for CheckSortedDisjointMap<T, VC> {
    type Item = (RangeInclusive<T>, VC);

    ghost next_gives = { YieldsWholeFirst (λ p. p.0) (shown_range T.rank VC.shown) (λ s. s) };

    ghost remaining = { item_count (λ s. s) };

    fn next(&mut self) -> Option<(RangeInclusive<T>, VC)> {
        self.items.next()
    }

    /// Returns the exact number of remaining ranges as both bounds. O(1).
    fn size_hint(&self) -> (usize, Option<usize>)
        ensures lower { IsWithinCount result.0 (item_count (λ s. s) self.now) }
        ensures upper { IfSome result.1 (UpTo (item_count (λ s. s) self.now)) }
        ensures exact { result ≡ (length self.now, Some (length self.now)) }
    {
        self.items.size_hint()
    }
}

impl<T: Integer, VC: ValueCarrier> FusedIterator for CheckSortedDisjointMap<T, VC> {}

impl<T: Integer, VC: ValueCarrier> SortedDisjointMap<T, VC> for CheckSortedDisjointMap<T, VC> {
    ghost left = { λ s. s };

    ghost least = { λ s. length s };

    fn in_hand(&self) {
        self.items.in_hand();
    }

    fn least_len(&self) -> usize {
        self.size_hint().0
    }

    ghost ready = { λ _. tt };

    ghost counted = { λ _. refl };

    ghost gives = { λ _ _ _ given. given.0 };
}
