//! The number of keys in a range, also in an empty one.
ghost use Rattle.std.specs.Prelude.{◌≡◌, ◌+ℤ◌, ◌≤ℤ◌, ◌<ℤ◌, pos};
ghost use Rattle.std.specs.Range.{range_inclusive_start, range_inclusive_end};

use blaze_int::compare::{is_below, length};
use blaze_int::{Integer, SafeLength};
use std::ops::RangeInclusive;

/// Returns the number of keys in a range, both ends included: 0 if its start is above its end. `Integer::safe_len` requires a
/// non-empty range, which a loop over entries can't always show. Does not allocate. O(1).
///
/// ```
/// range_len(&(10..=14)); // 5
/// ```
pub fn range_len<T: Integer>(range: &RangeInclusive<T>) -> T::SafeLen
    ensures length { T.rank (range_inclusive_start range.now) ≤ℤ T.rank (range_inclusive_end range.now)
        → T.rank (range_inclusive_start range.now) +ℤ pos (T.SafeLen.number result)
        ≡ T.rank (range_inclusive_end range.now) +ℤ pos 1 }
    ensures none { T.rank (range_inclusive_end range.now) <ℤ T.rank (range_inclusive_start range.now)
        → T.SafeLen.number result ≡ 0 }
{
    let (start, end) = (*range.start(), *range.end());
    if is_below(end, start) {
        T::SafeLen::zero()
    } else {
        length(start, end)
    }
}
