//! How many keys have a value, and how many entries there are. None of the calls allocates.
ghost use Rattle.std.specs.Prelude.{◌≡◌, ◌↔◌, ◌+◌, ◌*◌, ◌^◌, [], length, pos, IsTrue};
ghost use Rattle.blaze_entries.specs.Overlap.{covered_keys};
ghost use Rattle.blaze_entries.specs.Count.{keys_in};

use crate::handle::RangeMap;
use crate::table_counts::shared_keys;
use range_map_blaze::RangeMapBlaze;

/// Returns whether no key has a value. O(1).
#[unsafe(no_mangle)]
pub extern "C" fn range_map_is_empty_unchecked(map: &mut RangeMap) -> bool
    ensures empty { IsTrue result ↔ (map.old.entries ≡ []) }
    ensures kept { map.new.entries ≡ map.old.entries }
    ensures same { map.new.at ≡ map.old.at }
{
    match map.as_ref() {
        Some(map) => map.map.is_empty(),
        None => true,
    }
}

/// Writes how many keys have a value, up to 2^64: `low`, and 2^64 times `high`. O(1).
#[unsafe(no_mangle)]
pub extern "C" fn range_map_count_unchecked(map: &mut RangeMap, low: &mut u64, high: &mut u64)
    ensures count { pos (low.new + 2 ^ 64 * high.new) ≡ keys_in map.old.entries }
    ensures kept { map.new.entries ≡ map.old.entries }
    ensures same { map.new.at ≡ map.old.at }
{
    let count = match map.as_ref() {
        Some(map) => map.map.len(),
        None => 0,
    };
    write_count(count, low, high);
}

/// Writes how many keys from `lo` to `hi` have a value, up to 2^64: `low`, and 2^64 times `high`. O(log n) for n entries, and O(1) for
/// each entry in the range.
#[unsafe(no_mangle)]
pub extern "C" fn range_map_count_within_unchecked(
    map: &mut RangeMap,
    lo: i64,
    hi: i64,
    low: &mut u64,
    high: &mut u64,
)
    ensures count { pos (low.new + 2 ^ 64 * high.new) ≡ covered_keys lo hi map.old.entries }
    ensures kept { map.new.entries ≡ map.old.entries }
    ensures same { map.new.at ≡ map.old.at }
{
    let count = match map.as_ref() {
        Some(map) => count_within(&map.map, lo, hi),
        None => 0,
    };
    write_count(count, low, high);
}

// How many keys from `lo` to `hi` have a value.
fn count_within(map: &RangeMapBlaze<i64, u64>, lo: i64, hi: i64) -> u128
    ensures { pos result ≡ covered_keys lo hi map.now.entries }
{
    if hi < lo {
        return 0;
    }
    map.in_hand();
    let mut entries = map.overlapping(lo..=hi);
    let mut count = 0;
    while let Some((range, _)) = entries.next() {
        let (start, end) = range.into_inner();
        count += shared_keys(lo, hi, start, end);
    }
    count
}

/// How many counts a word has.
pub const WORD: u128 = 1 << 64;

// Writes a count in two words.
fn write_count(count: u128, low: &mut u64, high: &mut u64)
    ensures { low.new + 2 ^ 64 * high.new ≡ count }
{
    *low = (count % WORD) as u64;
    *high = (count / WORD) as u64;
}

/// Returns how many entries there are. O(1).
#[unsafe(no_mangle)]
pub extern "C" fn range_map_entries_unchecked(map: &mut RangeMap) -> u64
    ensures count { result ≡ length map.old.entries }
    ensures kept { map.new.entries ≡ map.old.entries }
    ensures same { map.new.at ≡ map.old.at }
{
    match map.as_ref() {
        Some(map) => map.map.ranges_len() as u64,
        None => 0,
    }
}
