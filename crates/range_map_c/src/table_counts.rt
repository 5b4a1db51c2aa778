//! The number of keys in a range that have a value in a table.
ghost use Rattle.std.specs.Prelude.{◌≡◌, ◌+◌, ◌*◌, ◌^◌, ◌≤◌, length, pos};
ghost use Rattle.range_map_c.specs.Ordered.{AreOrdered};
ghost use Rattle.blaze_entries.specs.Overlap.{covered_keys, shared_count};
ghost use Rattle.range_map_c.specs.Tables.{rows};

use crate::counts::WORD;
use crate::table_search::first_ending_from;

/// Writes how many keys from `first` to `last` have a value: `low`, plus 2^64 times `high`. The count is 0 if `first` is above
/// `last`. Does not allocate. O(log n) for n rows, and O(1) for each row in the range.
///
/// Conditions: the arrays are equally long, and `range_table_is_ordered_unchecked` returns true for them.
#[unsafe(no_mangle)]
pub extern "C" fn range_table_count_within_unchecked(
    lo: &[i64],
    hi: &[i64],
    value: &[u64],
    first: i64,
    last: i64,
    low: &mut u64,
    high: &mut u64,
)
    requires his { length hi.now ≡ length lo.now }
    requires values { length value.now ≡ length lo.now }
    requires ordered { AreOrdered (rows lo.now hi.now value.now) }
    ensures count { pos (low.new + 2 ^ 64 * high.new)
        ≡ covered_keys first last (rows lo.now hi.now value.now) }
{
    let mut count = 0;
    let mut row = first_ending_from(lo, hi, first);
    while row < lo.len() && lo[row] <= last {
        count += shared_keys(first, last, lo[row], hi[row]);
        row += 1;
    }
    *low = (count % WORD) as u64;
    *high = (count / WORD) as u64;
}

// Returns how many keys lie both from `first` to `last` and from `start` to `end`.
pub fn shared_keys(first: i64, last: i64, start: i64, end: i64) -> u128
    ensures keys { pos result ≡ shared_count first last start end }
    ensures bound { result ≤ 2 ^ 64 }
{
    let from = first.max(start);
    let to = last.min(end);
    if to < from {
        return 0;
    }
    u128::from(to.abs_diff(from)) + 1
}
