//! Whether ranges have their values already, so that painting them changes nothing. No call allocates.
ghost use Rattle.std.specs.Prelude.{◌≡◌, ◌↔◌, ◌⊎◌, ◌<ℤ◌, length, IsTrue, nat_eq};
ghost use Rattle.blaze_entries.specs.Painted.{IsInside};
ghost use Rattle.range_map_blaze.specs.Extended.{AreInside};
ghost use Rattle.range_map_c.specs.Tables.{rows};

use range_map_blaze::RangeMapBlaze;

// Whether a range has no key, or is inside one entry with the value. O(log n) for n entries.
fn is_inside(map: &RangeMapBlaze<i64, u64>, lo: i64, hi: i64, value: u64) -> bool
    ensures { IsTrue result ↔ ((hi <ℤ lo) ⊎ IsInside nat_eq lo hi value map.now.entries) }
{
    if hi < lo {
        return true;
    }
    map.in_hand();
    match map.range_at(lo) {
        Some((range, there)) => *there == value && hi <= *range.end(),
        None => false,
    }
}

/// Returns whether each row of a table has no key, or is inside one entry with its value. It stops at the first other row. O(log n) for
/// each row, for n entries.
pub fn are_rows_inside(map: &RangeMapBlaze<i64, u64>, lo: &[i64], hi: &[i64], value: &[u64]) -> bool
    requires his { length hi.now ≡ length lo.now }
    requires values { length value.now ≡ length lo.now }
    ensures { IsTrue result ↔ AreInside nat_eq (rows lo.now hi.now value.now) map.now.entries }
{
    for i in 0..lo.len() {
        if !is_inside(map, lo[i], hi[i], value[i]) {
            return false;
        }
    }
    true
}

/// Returns whether each entry of `other` is inside one entry of `map` with the same value. It stops at the first other entry. O(m log n)
/// for m entries of `other` and n of `map`.
pub fn has_entries_of(map: &RangeMapBlaze<i64, u64>, other: &RangeMapBlaze<i64, u64>) -> bool
    ensures { IsTrue result ↔ AreInside nat_eq other.now.entries map.now.entries }
{
    let mut entries = other.range_values();
    while let Some((range, value)) = entries.next() {
        let (start, end) = range.into_inner();
        if !is_inside(map, start, end, *value) {
            return false;
        }
    }
    true
}
