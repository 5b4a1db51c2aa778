//! The gaps of a range, found from the least key up.
ghost use Rattle.std.specs.Prelude.{◌≡◌, ◌⊎◌, ◌↔◌, pos, ◌+ℤ◌, ◌-ℤ◌, ◌≤ℤ◌, ◌<ℤ◌};
ghost use Rattle.std.specs.Prelude.{IsTrue, MatchOption};
ghost use Rattle.blaze_entries.specs.Canonical.{AreKeys};
ghost use Rattle.blaze_entries.specs.Entries.{at};
ghost use Rattle.blaze_table.specs.Filled.{IsMappedFrom};
ghost use Rattle.blaze_table.specs.Filling.{IsGapEnd, IsNextGap, IsOrdered};

use crate::search::entries_ending_from;
use blaze_entries::Entries;
use blaze_int::Integer;
use blaze_int::compare::{is_below, is_next};

/// A range of keys without a value, by its first and last key. The flags say whether the values right below and right
/// above it equal the value that fills it.
#[derive(Clone, Copy)]
pub struct Gap<T> {
    pub start: T,
    pub end: T,
    pub equal_below: bool,
    pub equal_above: bool,
}

// Returns the key before `key`, or `key` itself if it is the least.
fn before_or_least<T: Integer>(key: T) -> T
    ensures { (T.rank result ≡ T.rank key -ℤ pos 1)
        ⊎ ((T.rank result ≡ T.rank key) × (T.rank key ≤ℤ T.low)) }
{
    let least = T::min_value();
    if is_below(least, key) {
        key.sub_one()
    } else {
        key
    }
}

// Returns the gap that starts at `key` and ends just below `next`, the start of an entry, or at `end` if that is lower.
fn gap_below<T: Integer>(key: T, equal_below: bool, end: T, next: T, is_equal: bool) -> Gap<T>
    requires order { T.rank key ≤ℤ T.rank end }
    requires next { T.rank key <ℤ T.rank next }
    ensures start { T.rank result.start ≡ T.rank key }
    ensures end { IsGapEnd (T.rank key) (T.rank end) (T.rank next) (T.rank result.end) }
    ensures below { result.equal_below ≡ equal_below }
    ensures above { IsTrue result.equal_above
        ↔ ((T.rank next ≡ T.rank result.end +ℤ pos 1) × IsTrue is_equal) }
{
    key.in_hand();
    let last = if is_below(end, next) {
        end
    } else {
        next.sub_one()
    };
    Gap {
        start: key,
        end: last,
        equal_below,
        equal_above: is_equal && is_next(last, next),
    }
}

/// Returns the first gap from `start` to `end`, compared with a value. O(log n + k) with n entries, of which k precede
/// the gap in the range.
pub fn first_gap<T: Integer, V: Eq>(
    entries: &Entries<T, V>,
    start: T,
    end: T,
    value: &V,
) -> Option<Gap<T>>
    requires order { T.rank start ≤ℤ T.rank end }
    requires ordered { IsOrdered entries.now.counted.entries }
    requires keys { AreKeys T.low T.high entries.now.counted.entries }
    ensures { MatchOption result
        (IsMappedFrom (at entries.now.counted.entries) (T.rank start) (T.rank end))
        (λ gap. IsNextGap V.eq (at entries.now.counted.entries) value.now (T.rank start) (T.rank end)
        (T.rank gap.start) (T.rank gap.end) gap.equal_below gap.equal_above) }
{
    end.in_hand();
    let mut key = start;
    let mut is_equal = false;
    for (first, last, held) in entries_ending_from(entries, before_or_least(start)) {
        if is_below(key, first) {
            return Some(gap_below(key, is_equal, end, first, *held == *value));
        }
        if !is_below(last, end) {
            return None;
        }
        key = last.add_one();
        is_equal = *held == *value;
    }
    Some(Gap {
        start: key,
        end,
        equal_below: is_equal,
        equal_above: false,
    })
}

/// Returns the first gap above `key` up to `end`, compared with a value. O(log n + k) with n entries, of which k
/// precede the gap in the range.
pub fn gap_above<T: Integer, V: Eq>(
    entries: &Entries<T, V>,
    key: T,
    end: T,
    value: &V,
) -> Option<Gap<T>>
    requires ordered { IsOrdered entries.now.counted.entries }
    requires keys { AreKeys T.low T.high entries.now.counted.entries }
    ensures { MatchOption result
        (IsMappedFrom (at entries.now.counted.entries) (T.rank key +ℤ pos 1) (T.rank end))
        (λ gap. IsNextGap V.eq (at entries.now.counted.entries) value.now (T.rank key +ℤ pos 1) (T.rank end)
        (T.rank gap.start) (T.rank gap.end) gap.equal_below gap.equal_above) }
{
    if is_below(key, end) {
        end.in_hand();
        first_gap(entries, key.add_one(), end, value)
    } else {
        None
    }
}
