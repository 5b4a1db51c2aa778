//! The values of a range, combined with one value.
ghost use Rattle.std.specs.Prelude.{◌≡◌, ◌≢◌, ◌⊎◌, ◌↔◌, ◌<◌, ◌≤◌, ◌<ℤ◌, ◌≤ℤ◌, pos, Ok, OnOk, OnErr, nat_eq};
ghost use Rattle.blaze_streams.specs.Carried.{shown_option};
ghost use Rattle.range_map_c.specs.Combined.{operated, combined, IsCombined, IsPartCombined, LeavesAll};
ghost use Rattle.range_map_c.specs.Handle.{least_key, greatest_key};
ghost use Rattle.range_map_c.specs.Status.{IsStatus, IsCombineStatus, OnDone, OnRefused};

use super::RangeMap;
use super::bulk::status_of;
use crate::{DONE, INVALID, NO_MEMORY};
use range_map_blaze::RangeMapBlaze;
use std::alloc::{AllocError, Global};

/// The greatest number of an operation: the old value.
const KEEP_OLD: u32 = 6;

/// `place`: all keys of the range change. A key without a value gets the given one.
const ALL: u32 = 0;

/// The place for the keys of a range that have a value.
const MAPPED: u32 = 1;

/// Sets the value of every key from `lo` to `hi` that has one to the result of an operation on it and `value`. A key without a
/// value gets `value` if `place` is 0, and stays without one if `place` is 1. `op` is the operation:
///
/// - 0: the sum modulo 2^64
/// - 1: the lesser
/// - 2: the greater
/// - 3: the bits that both have
/// - 4: the bits that one of them has, or both
/// - 5: the bits that exactly one of them has
/// - 6: the old value
///
/// If `op` or `place` is another number, whatever the range is, the map is unchanged. If an allocation fails, a first part of the
/// entries and gaps in the range is changed, perhaps none. A range in which nothing changes does not allocate, and the call
/// succeeds.
///
/// O(log n) for n entries, O(1) for each entry and each gap in the range, and O(log n) for each of them that changes.
#[unsafe(no_mangle)]
pub extern "C" fn range_map_combine_unchecked(
    alloc: Global,
    map: &mut RangeMap,
    lo: i64,
    hi: i64,
    value: u64,
    op: u32,
    place: u32,
) -> i32
    ensures status { IsCombineStatus result }
    ensures invalid { result ≡ pos 6 ↔ (6 < op) ⊎ (1 < place) }
    ensures unchanged { result ≡ pos 6 → map.new.entries ≡ map.old.entries }
    ensures ok { OnDone result (IsCombined least_key greatest_key lo hi (combined op place value)
        map.old.entries map.new.entries) }
    ensures nowhere { op ≤ 6 → place ≤ 1 → hi <ℤ lo
        → (result ≡ pos 0) × (map.new.entries ≡ map.old.entries) }
    ensures err { OnRefused result (IsPartCombined least_key greatest_key lo hi
        (combined op place value) map.old.entries map.new.entries) }
    ensures steady { op ≤ 6 → place ≤ 1 → LeavesAll lo hi (combined op place value) map.old.entries
        → result ≡ pos 0 }
{
    map.in_hand(alloc);
    if op > KEEP_OLD || place > MAPPED {
        return INVALID;
    }
    if hi < lo {
        return DONE;
    }
    if place == ALL {
        return combine_all(alloc, map, lo, hi, value, op);
    }
    match map.as_mut() {
        Some(there) => status_of(combine(&mut there.map, lo, hi, value, op, place)),
        None => DONE,
    }
}

// Combines the values of all keys of a range. Where there is no map yet, one is made.
fn combine_all(alloc: Global, map: &mut RangeMap, lo: i64, hi: i64, value: u64, op: u32) -> i32
    ensures status { IsStatus result }
    ensures ok { OnDone result (IsCombined least_key greatest_key lo hi (combined op 0 value)
        map.old.entries map.new.entries) }
    ensures err { OnRefused result (IsPartCombined least_key greatest_key lo hi
        (combined op 0 value) map.old.entries map.new.entries) }
    ensures steady { lo ≤ℤ hi → LeavesAll lo hi (combined op 0 value) map.old.entries
        → result ≡ pos 0 }
{
    map.in_hand(alloc);
    let mut boxed = match map.take_or_make(alloc) {
        Ok(boxed) => boxed,
        Err(_) => return NO_MEMORY,
    };
    let outcome = combine(&mut boxed.map, lo, hi, value, op, ALL);
    map.set_map(boxed);
    status_of(outcome)
}

// Combines the values of the keys of a range. If an allocation fails, those of a first part of its entries and gaps are combined.
fn combine(
    map: &mut RangeMapBlaze<i64, u64>,
    lo: i64,
    hi: i64,
    value: u64,
    op: u32,
    place: u32,
) -> Result<(), AllocError>
    ensures ok { OnOk result (IsCombined least_key greatest_key lo hi (combined op place value)
        map.old.entries map.new.entries) }
    ensures err { OnErr result (IsPartCombined least_key greatest_key lo hi
        (combined op place value) map.old.entries map.new.entries) }
    ensures steady { LeavesAll lo hi (combined op place value) map.old.entries → result ≡ Ok tt }
{
    map.in_hand();
    map.ranges_update(lo..=hi, |old| Ok(combined_with(old, value, op, place)))
}

// Returns a key's new value, given its old one.
fn combined_with(old: Option<&u64>, value: u64, op: u32, place: u32) -> Option<u64>
    ensures { result ≡ combined op place value (shown_option (λ v. v.now) old.entry) }
{
    match old {
        Some(old) => Some(operated_on(*old, value, op)),
        None if place == ALL => Some(value),
        None => None,
    }
}

// Applies the operation to the old value and the given one.
fn operated_on(old: u64, value: u64, op: u32) -> u64
    ensures { result ≡ operated op old value }
{
    match op {
        0 => old.wrapping_add(value),
        1 => old.min(value),
        2 => old.max(value),
        3 => old & value,
        4 => old | value,
        5 => old ^ value,
        _ => old,
    }
}
