//! Streams of ranges and their laws. Contracts see a stream as the list of its remaining ranges, as entries with the
//! unit value.
ghost use Rattle.std.specs.Prelude.{◌≡◌, ◌≤◌, ℕ, List, Option, length};
ghost use Rattle.std.specs.Iterator.{YieldsFirstBy, item_count};
ghost use Rattle.std.specs.declared.ops.RangeInclusive.{RangeInclusive};
ghost use Rattle.blaze_entries.specs.Entries.{Entry};
ghost use Rattle.blaze_entries.specs.RangeSets.{shown_bare_range, IsRangeSet};

use blaze_int::Integer;
use std::ops::RangeInclusive;

/// A stream of ranges. No range is empty, the ranges ascend, and no two touch or share a key. The stream is finite, and
/// it is fused: after `None` it always returns `None`.
pub trait SortedDisjoint<T: Integer>: Iterator<Item = RangeInclusive<T>> {
    // The remaining ranges, as entries with the unit value.
    ghost left: { Self → List (Entry (Unit {0})) };

    // The lower bound of `size_hint`.
    ghost least: { Self → ℕ };

    /// Does nothing. Its contract states that the remaining list is canonical and its ends are keys.
    fn in_hand(&self)
        ensures { IsRangeSet T.low T.high (left self.now) };

    /// Returns the lower bound of `size_hint`, in ranges.
    fn least_len(&self) -> usize
        ensures value { result ≡ least self.now }
        ensures bound { result ≤ length (left self.now) };

    // `next` may always be called.
    ghost ready: { (s : Self) → Self.can_next s };

    // The stream yields no more ranges than remain.
    ghost counted: { (s : Self) → Self.remaining s ≡ item_count left s };

    // `next` yields the first remaining range, or `None` if none remains.
    ghost gives: { (s : Self) (r : Option (RangeInclusive T)) (t : Self) → Self.next_gives s r t
        → YieldsFirstBy (shown_bare_range T.rank) left s r t };
}
