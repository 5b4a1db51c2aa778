//! A valid list of ranges with values, as a stream.
ghost use Rattle.std.specs.Prelude.{◌≡◌, length, refl, Some, IfSome};
ghost use Rattle.std.specs.Iterator.{item_count, UpTo};
ghost use Rattle.std.specs.Iterator.SizeHint.{IsWithinCount};
ghost use Rattle.blaze_entries.specs.Canonical.{IsRangeMap};
ghost use Rattle.blaze_streams.specs.RangeLists.{shown_ranges};
ghost use Rattle.blaze_streams.specs.Ranges.{shown_range};
ghost use Rattle.blaze_entries.specs.Whole.{YieldsWholeFirst};

use crate::carrier::ValueCarrier;
use crate::sorted_disjoint_map::SortedDisjointMap;
use blaze_int::Integer;
use std::iter::FusedIterator;
use std::marker::Model;
use std::ops::RangeInclusive;
use std::vec;

/// A stream over a list of ranges with carriers that obeys the law of `SortedDisjointMap`.
#[derive(Drop)]
pub struct CanonMapIter<T: Integer, VC: ValueCarrier> {
    rest: vec::IntoIter<(RangeInclusive<T>, VC)>,
}

impl<T: Integer, VC: ValueCarrier> Model for CanonMapIter<T, VC> {
    ghost use Rattle.std.specs.Prelude.{List};
    ghost use Rattle.std.specs.Coded.{coded_list};
    ghost use Rattle.std.specs.Vec.Iter.{into_iter_items};
    ghost use Rattle.blaze_entries.specs.Entries.{Entry, entry_code};
    ghost use Rattle.blaze_entries.specs.Canonical.{IsRangeMap};
    ghost use Rattle.blaze_streams.specs.RangeLists.{shown_ranges};

    ghost Value = { List (Entry VC.Value) };

    ghost coded = { coded_list (entry_code VC.Value.code) };

    ghost view = { λ s. shown_ranges T.rank VC.shown (into_iter_items s.rest) };

    ghost invariant = { λ s. IsRangeMap VC.Value.eq T.low T.high
        (shown_ranges T.rank VC.shown (into_iter_items s.rest)) };
}

impl<T: Integer, VC: ValueCarrier> CanonMapIter<T, VC> {
    /// Returns a stream of the items, in order. It requires that they obey the law of `SortedDisjointMap`. It allocates
    /// nothing. O(1).
    pub fn new(items: Vec<(RangeInclusive<T>, VC)>) -> Self
        requires range_map { IsRangeMap VC.Value.eq T.low T.high (shown_ranges T.rank VC.shown items.items) }
        ensures { result ≡ shown_ranges T.rank VC.shown items.items }
    {
        CanonMapIter {
            rest: items.into_iter(),
        }
    }
}

impl<T: Integer, VC: ValueCarrier> Iterator for CanonMapIter<T, VC> {
    type Item = (RangeInclusive<T>, VC);

    ghost next_gives = { YieldsWholeFirst (λ p. p.0) (shown_range T.rank VC.shown) (λ s. s) };

    ghost remaining = { item_count (λ s. s) };

    fn next(&mut self) -> Option<(RangeInclusive<T>, VC)> {
        let (range, carrier) = self.rest.next()?;
        let (start, end) = range.into_inner();
        Some((start..=end, carrier))
    }

    /// Returns the exact number of remaining ranges as both bounds. O(1).
    fn size_hint(&self) -> (usize, Option<usize>)
        ensures lower { IsWithinCount result.0 (item_count (λ s. s) self.now) }
        ensures upper { IfSome result.1 (UpTo (item_count (λ s. s) self.now)) }
        ensures exact { result ≡ (length self.now, Some (length self.now)) }
    {
        let len = self.rest.len();
        (len, Some(len))
    }
}

impl<T: Integer, VC: ValueCarrier> FusedIterator for CanonMapIter<T, VC> {}

impl<T: Integer, VC: ValueCarrier> SortedDisjointMap<T, VC> for CanonMapIter<T, VC> {
    ghost left = { λ s. s };

    ghost least = { λ s. length s };

    fn in_hand(&self) {
        let _ = &self.rest;
    }

    fn least_len(&self) -> usize {
        self.size_hint().0
    }

    ghost ready = { λ _. tt };

    ghost counted = { λ _. refl };

    ghost gives = { λ _ _ _ given. given.0 };
}
