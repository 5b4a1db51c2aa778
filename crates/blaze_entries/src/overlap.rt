//! The number of keys that an entry shares with a range.
ghost use Rattle.std.specs.Prelude.{◌≡◌, pos, ◌+ℤ◌, ◌≤ℤ◌};
ghost use Rattle.blaze_entries.specs.Overlap.{shared_count};

use crate::range_entry::RangeEntry;
use blaze_int::compare::{greater, is_at_most, length, lesser};
use blaze_int::{Integer, SafeLength};

/// Returns `len` less the number of keys that the entry `found` shares with the range from `lo` to `hi`. O(1).
pub fn length_outside<T: Integer>(
    len: T::SafeLen,
    found: RangeEntry<T, bool>,
    lo: T,
    hi: T,
) -> T::SafeLen
    requires { shared_count (T.rank lo) (T.rank hi) (T.rank found.start) (T.rank found.end)
        ≤ℤ pos (T.SafeLen.number len) }
    ensures { pos (T.SafeLen.number result)
        +ℤ shared_count (T.rank lo) (T.rank hi) (T.rank found.start) (T.rank found.end)
        ≡ pos (T.SafeLen.number len) }
{
    let first = greater(found.start, lo);
    let last = lesser(found.end, hi);
    if is_at_most(first, last) {
        len.minus(length(first, last))
    } else {
        len
    }
}
