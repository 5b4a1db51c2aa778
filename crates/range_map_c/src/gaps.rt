//! Whether the keys of a range have values, and the first and the last free range of some length.
ghost use Rattle.std.specs.Prelude.{◌≡◌, ◌↔◌, ◌<◌, ◌≤ℤ◌, ◌<ℤ◌, ◌+ℤ◌, pos, MatchOption, IsTrue, IsFalse, MatchBool};
ghost use Rattle.blaze_entries.specs.Entries.{at};
ghost use Rattle.blaze_table.specs.Filled.{IsMappedFrom};
ghost use Rattle.blaze_table.specs.Gap.{IsClearFrom};
ghost use Rattle.range_map_c.specs.Gaps.{HasKeyFrom, HasNoFreeRange, IsFirstFreeRange, IsLastFreeRange};

use crate::handle::{RangeMap, map_or};
use range_map_blaze::RangeMapBlaze;
use std::alloc::Global;

/// Returns whether a key from `lo` to `hi` has a value. O(log n) for n entries. It does not allocate.
#[unsafe(no_mangle)]
pub extern "C" fn range_map_any_unchecked(map: &mut RangeMap, lo: i64, hi: i64) -> bool
    ensures any { MatchBool result (HasKeyFrom (at map.old.entries) lo hi)
        (IsClearFrom (at map.old.entries) lo hi) }
    ensures kept { map.new.entries ≡ map.old.entries }
    ensures same { map.new.at ≡ map.old.at }
{
    match map.as_ref() {
        Some(map) => has_key_from(&map.map, lo, hi),
        None => false,
    }
}

/// Returns whether a key from `lo` to `hi` has a value.
pub fn has_key_from(map: &RangeMapBlaze<i64, u64>, lo: i64, hi: i64) -> bool
    ensures { MatchBool result (HasKeyFrom (at map.now.entries) lo hi)
        (IsClearFrom (at map.now.entries) lo hi) }
{
    if hi < lo {
        return false;
    }
    map.in_hand();
    match map.overlapping(lo..=hi).next() {
        Some(_) => true,
        None => false,
    }
}

/// Returns whether every key from `lo` to `hi` has a value. O(log n) for n entries, and O(1) for each entry up to the first gap. It
/// does not allocate.
#[unsafe(no_mangle)]
pub extern "C" fn range_map_all_unchecked(
    alloc: Global,
    map: &mut RangeMap,
    lo: i64,
    hi: i64,
) -> bool
    ensures all { IsTrue result ↔ IsMappedFrom (at map.old.entries) lo hi }
    ensures kept { map.new.entries ≡ map.old.entries }
    ensures same { map.new.at ≡ map.old.at }
{
    let empty = RangeMapBlaze::new(alloc);
    first_gap(map_or(map.as_ref(), &empty), lo, hi, 1).is_none()
}

/// Returns whether there are `length` keys in a row, from `from` to `to`, of which none has a value, and writes the least key that
/// can be their first. A length of 0 finds nothing. O(log n) for n entries, and O(1) for each entry up to the result. It does not
/// allocate.
#[unsafe(no_mangle)]
pub extern "C" fn range_map_find_gap_unchecked(
    alloc: Global,
    map: &mut RangeMap,
    from: i64,
    to: i64,
    length: u64,
    lo: &mut i64,
) -> bool
    ensures gap { MatchBool result
        (IsFirstFreeRange (at map.old.entries) from to length lo.new)
        (HasNoFreeRange (at map.old.entries) from to length) }
    ensures unwritten { IsFalse result → lo.new ≡ lo.old }
    ensures kept { map.new.entries ≡ map.old.entries }
    ensures same { map.new.at ≡ map.old.at }
{
    let empty = RangeMapBlaze::new(alloc);
    match first_gap(map_or(map.as_ref(), &empty), from, to, length) {
        Some(first) => {
            *lo = first;
            true
        }
        None => false,
    }
}

/// Returns whether there are `length` keys in a row, from `from` to `to`, of which none has a value, and writes the greatest key that
/// can be their first. A length of 0 finds nothing. O(log n) for n entries, and O(1) for each entry down to the result. It does not
/// allocate.
#[unsafe(no_mangle)]
pub extern "C" fn range_map_find_last_gap_unchecked(
    alloc: Global,
    map: &mut RangeMap,
    from: i64,
    to: i64,
    length: u64,
    lo: &mut i64,
) -> bool
    ensures gap { MatchBool result
        (IsLastFreeRange (at map.old.entries) from to length lo.new)
        (HasNoFreeRange (at map.old.entries) from to length) }
    ensures unwritten { IsFalse result → lo.new ≡ lo.old }
    ensures kept { map.new.entries ≡ map.old.entries }
    ensures same { map.new.at ≡ map.old.at }
{
    let empty = RangeMapBlaze::new(alloc);
    match last_gap(map_or(map.as_ref(), &empty), from, to, length) {
        Some(first) => {
            *lo = first;
            true
        }
        None => false,
    }
}

// Returns whether `from..=to` has at least `length` keys.
fn fits(from: i64, to: i64, length: u64) -> bool
    requires order { from ≤ℤ to }
    requires some { 0 < length }
    ensures { MatchBool result ((from +ℤ pos length) ≤ℤ (to +ℤ pos 1))
        ((to +ℤ pos 1) <ℤ (from +ℤ pos length)) }
{
    length - 1 <= to.abs_diff(from)
}

// Whether `above` is at least `length` above `below`.
fn is_apart(below: i64, above: i64, length: u64) -> bool
    requires { 0 < length }
    ensures { MatchBool result ((below +ℤ pos length) ≤ℤ above) (above <ℤ (below +ℤ pos length)) }
{
    below < above && length <= above.abs_diff(below)
}

// The least first key of `length` free keys in a row.
fn first_gap(map: &RangeMapBlaze<i64, u64>, from: i64, to: i64, length: u64) -> Option<i64>
    ensures { MatchOption result (HasNoFreeRange (at map.now.entries) from to length)
        (λ first. IsFirstFreeRange (at map.now.entries) from to length first) }
{
    if length == 0 || to < from {
        return None;
    }
    map.in_hand();
    let mut entries = map.overlapping(from..=to);
    let mut first = from;
    while let Some((range, _)) = entries.next() {
        let (start, end) = range.into_inner();
        if is_apart(first, start, length) {
            return Some(first);
        }
        if to <= end {
            return None;
        }
        first = end + 1;
    }
    if fits(first, to, length) {
        Some(first)
    } else {
        None
    }
}

// The greatest first key of `length` free keys in a row.
fn last_gap(map: &RangeMapBlaze<i64, u64>, from: i64, to: i64, length: u64) -> Option<i64>
    ensures { MatchOption result (HasNoFreeRange (at map.now.entries) from to length)
        (λ first. IsLastFreeRange (at map.now.entries) from to length first) }
{
    if length == 0 || to < from {
        return None;
    }
    map.in_hand();
    let mut entries = map.overlapping(from..=to);
    let mut last = to;
    while let Some((range, _)) = entries.next_back() {
        let (start, end) = range.into_inner();
        if is_apart(end, last, length) {
            return Some(first_of_last(end + 1, last, length));
        }
        if start <= from {
            return None;
        }
        last = start - 1;
    }
    if fits(from, last, length) {
        Some(first_of_last(from, last, length))
    } else {
        None
    }
}

// Returns the first of the `length` keys that end at `last`. None of them is below `from`.
fn first_of_last(from: i64, last: i64, length: u64) -> i64
    requires some { 0 < length }
    requires fits { (from +ℤ pos length) ≤ℤ (last +ℤ pos 1) }
    ensures { result +ℤ pos length ≡ last +ℤ pos 1 }
{
    let back = length - 1;
    if back <= i64::MAX as u64 {
        last - back as i64
    } else {
        from + (last.abs_diff(from) - back) as i64
    }
}
