//! Lookups by key. None allocates; each takes O(log n) for n entries.
ghost use Rattle.std.specs.Prelude.{◌≡◌, Some, None, IsFalse, MatchBool, MatchOption, option_map};
ghost use Rattle.blaze_entries.specs.Entries.{entry, at, entry_at};
ghost use Rattle.blaze_entries.specs.Ending.{overlapping};
ghost use Rattle.blaze_table.specs.Gap.{IsGap};
ghost use Rattle.range_map_c.specs.Handle.{least_key, greatest_key};
ghost use Rattle.range_map_c.specs.Told.{told, told_entry, shown, first_of, last_of};

use crate::handle::{RangeMap, map_or};
use range_map_blaze::RangeMapBlaze;
use std::alloc::Global;

/// Returns whether a key has a value, and writes that value.
#[unsafe(no_mangle)]
pub extern "C" fn range_map_get_unchecked(map: &mut RangeMap, key: i64, value: &mut u64) -> bool
    ensures value { told result value.new ≡ at map.old.entries key }
    ensures unwritten { IsFalse result → value.new ≡ value.old }
    ensures kept { map.new.entries ≡ map.old.entries }
    ensures same { map.new.at ≡ map.old.at }
{
    let map = match map.as_ref() {
        Some(map) => &map.map,
        None => return false,
    };
    match map.get(key) {
        Some(there) => {
            *value = *there;
            true
        }
        None => false,
    }
}

/// Writes the entry that contains a key, and returns true. If the key has no value, writes the longest range around it in which
/// no key has a value, and the value 0, and returns false.
#[unsafe(no_mangle)]
pub extern "C" fn range_map_entry_or_gap_at_unchecked(
    alloc: Global,
    map: &mut RangeMap,
    key: i64,
    lo: &mut i64,
    hi: &mut i64,
    value: &mut u64,
) -> bool
    ensures piece { MatchBool result
        (entry_at map.old.entries key ≡ Some (entry lo.new hi.new value.new))
        ((at map.old.entries key ≡ None)
        × IsGap least_key greatest_key (at map.old.entries) key lo.new hi.new
        × (value.new ≡ 0)) }
    ensures kept { map.new.entries ≡ map.old.entries }
    ensures same { map.new.at ≡ map.old.at }
{
    let empty = RangeMapBlaze::new(alloc);
    let (start, end, found) = piece_at(map_or(map.as_ref(), &empty), key);
    *lo = start;
    *hi = end;
    match found {
        Some(there) => {
            *value = there;
            true
        }
        None => {
            *value = 0;
            false
        }
    }
}

// The entry that contains a key, or the gap around it.
fn piece_at(map: &RangeMapBlaze<i64, u64>, key: i64) -> (i64, i64, Option<u64>)
    ensures { MatchOption result.2 ((at map.now.entries key ≡ None)
        × IsGap least_key greatest_key (at map.now.entries) key result.0 result.1)
        (λ v. entry_at map.now.entries key ≡ Some (entry result.0 result.1 v)) }
{
    let (range, value) = map.range_or_gap_at(key);
    let (start, end) = range.into_inner();
    match value {
        Some(value) => (start, end, Some(*value)),
        None => (start, end, None),
    }
}

/// Returns whether an entry ends at a key or above it, and writes the first of those entries.
#[unsafe(no_mangle)]
pub extern "C" fn range_map_next_unchecked(
    map: &mut RangeMap,
    key: i64,
    lo: &mut i64,
    hi: &mut i64,
    value: &mut u64,
) -> bool
    ensures entry { told_entry result lo.new hi.new value.new
        ≡ first_of (overlapping key greatest_key map.old.entries) }
    ensures unwritten { IsFalse result
        → (lo.new ≡ lo.old) × (hi.new ≡ hi.old) × (value.new ≡ value.old) }
    ensures kept { map.new.entries ≡ map.old.entries }
    ensures same { map.new.at ≡ map.old.at }
{
    let found = match map.as_ref() {
        Some(map) => first_from(&map.map, key),
        None => None,
    };
    tell_entry(found, lo, hi, value)
}

/// Returns whether an entry starts at a key or below it, and writes the last of those entries.
#[unsafe(no_mangle)]
pub extern "C" fn range_map_previous_unchecked(
    map: &mut RangeMap,
    key: i64,
    lo: &mut i64,
    hi: &mut i64,
    value: &mut u64,
) -> bool
    ensures entry { told_entry result lo.new hi.new value.new
        ≡ last_of (overlapping least_key key map.old.entries) }
    ensures unwritten { IsFalse result
        → (lo.new ≡ lo.old) × (hi.new ≡ hi.old) × (value.new ≡ value.old) }
    ensures kept { map.new.entries ≡ map.old.entries }
    ensures same { map.new.at ≡ map.old.at }
{
    let found = match map.as_ref() {
        Some(map) => last_up_to(&map.map, key),
        None => None,
    };
    tell_entry(found, lo, hi, value)
}

// The first entry that ends at a key or above it.
fn first_from(map: &RangeMapBlaze<i64, u64>, key: i64) -> Option<(i64, i64, u64)>
    ensures { option_map shown result ≡ first_of (overlapping key greatest_key map.now.entries) }
{
    map.in_hand();
    match map.range_at_or_above(key) {
        Some((range, value)) => {
            let (start, end) = range.into_inner();
            Some((start, end, *value))
        }
        None => None,
    }
}

// The last entry that starts at a key or below it.
fn last_up_to(map: &RangeMapBlaze<i64, u64>, key: i64) -> Option<(i64, i64, u64)>
    ensures { option_map shown result ≡ last_of (overlapping least_key key map.now.entries) }
{
    map.in_hand();
    match map.range_at_or_below(key) {
        Some((range, value)) => {
            let (start, end) = range.into_inner();
            Some((start, end, *value))
        }
        None => None,
    }
}

// Writes an entry, if there is one.
fn tell_entry(found: Option<(i64, i64, u64)>, lo: &mut i64, hi: &mut i64, value: &mut u64) -> bool
    ensures entry { told_entry result lo.new hi.new value.new ≡ option_map shown found }
    ensures unwritten { IsFalse result
        → (lo.new ≡ lo.old) × (hi.new ≡ hi.old) × (value.new ≡ value.old) }
{
    match found {
        Some((start, end, there)) => {
            *lo = start;
            *hi = end;
            *value = there;
            true
        }
        None => false,
    }
}
