//! Streams of ranges with values, and their laws. Contracts see a stream as the list of its remaining entries.
ghost use Rattle.std.specs.Prelude.{◌≡◌, ◌≤◌, ℕ, List, Option, length};
ghost use Rattle.std.specs.Iterator.{YieldsFirstBy, YieldsLastBy, item_count};
ghost use Rattle.std.specs.declared.ops.RangeInclusive.{RangeInclusive};
ghost use Rattle.blaze_entries.specs.Entries.{Entry};
ghost use Rattle.blaze_entries.specs.Canonical.{IsRangeMap};
ghost use Rattle.blaze_streams.specs.LastParts.{IsSought};
ghost use Rattle.blaze_streams.specs.Ranges.{shown_range};

use crate::carrier::ValueCarrier;
use blaze_int::Integer;
use std::ops::RangeInclusive;

/// A stream of ranges with carriers of their values. No range is empty, the ranges ascend and are disjoint, and
/// touching ranges have unequal values. The stream is finite, and it is fused: after `None` it always returns `None`.
pub trait SortedDisjointMap<T: Integer, VC: ValueCarrier>: Iterator<
    Item = (RangeInclusive<T>, VC),
> {
    // The remaining ranges, as entries with the values of the carriers.
    ghost left: { Self → List (Entry VC.Value) };

    // The lower bound of `size_hint`.
    ghost least: { Self → ℕ };

    /// Does nothing. Its contract states that the remaining list is canonical and its ends are keys.
    fn in_hand(&self)
        ensures { IsRangeMap VC.Value.eq T.low T.high (left self.now) };

    /// Returns the lower bound of `size_hint`, in ranges.
    fn least_len(&self) -> usize
        ensures value { result ≡ least self.now }
        ensures bound { result ≤ length (left self.now) };

    /// Skips ranges that end below `key`, if the stream can do so faster than range by range. It may do nothing, which
    /// is the default.
    fn seek(&mut self, key: T)
        ensures { IsSought (T.rank key) (left self.old) (left self.new) }
    {
        let _ = key;
    }

    // `next` may always be called.
    ghost ready: { (s : Self) → Self.can_next s };

    // The stream yields no more ranges than remain.
    ghost counted: { (s : Self) → Self.remaining s ≡ item_count left s };

    // `next` yields the first remaining range, or `None` if none remains.
    ghost gives: { (s : Self) (r : Option (RangeInclusive T × VC)) (t : Self)
        → Self.next_gives s r t
        → YieldsFirstBy (shown_range T.rank VC.shown) left s r t };
}

/// A double-ended stream of ranges with values.
pub trait BothEnds<T: Integer, VC: ValueCarrier>: SortedDisjointMap<T, VC> + DoubleEndedIterator {
    // `next_back` may always be called.
    ghost ready_back: { (s : Self) → Self.can_next_back s };

    // `next_back` yields the last remaining range, or `None` if none remains.
    ghost gives_back: { (s : Self) (r : Option (RangeInclusive T × VC)) (t : Self)
        → Self.next_back_gives s r t
        → YieldsLastBy (shown_range T.rank VC.shown) Self.left s r t };
}
