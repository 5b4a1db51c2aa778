//! Many ranges in one call: painted in order, of another map or of a table, and a map made of a table.
ghost use Rattle.std.specs.Prelude.{◌≡◌, pos, length, map, IfOk, OnOk, OnErr, MatchResult, nat_eq};
ghost use Rattle.blaze_streams.specs.Ranges.{shown_range};
ghost use Rattle.blaze_table.specs.CanonicalOf.{IsCanonicalOf};
ghost use Rattle.range_map_blaze.specs.Extended.{AreInside};
ghost use Rattle.range_map_blaze.specs.Union.{IsUnion};
ghost use Rattle.range_map_c.specs.Handle.{least_key, greatest_key};
ghost use Rattle.range_map_c.specs.Ordered.{AreOrdered};
ghost use Rattle.range_map_c.specs.Status.{IsStatus, IsLoadStatus, OnDone, OnRefused};
ghost use Rattle.range_map_c.specs.Tables.{rows, AreRowsPainted, IsPartPainted};

use super::{RangeMap, hand_out, map_or};
use crate::inside::{are_rows_inside, has_entries_of};
use crate::table_order::range_table_is_ordered_unchecked;
use crate::{DONE, NO_MEMORY, NOT_ORDERED};
use range_map_blaze::RangeMapBlaze;
use std::alloc::{AllocError, Global};
use std::ops::RangeInclusive;

// A map with at least this many entries for each range is painted range by range, and another map by one pass.
const ENTRIES_A_RANGE: usize = 16;

/// Paints the ranges of a table in order: a later row replaces an earlier one, and a row whose first key is above its last has no
/// key. If an allocation fails, a first part of the rows is painted, perhaps none. If each row has no key or is inside an entry with
/// its value, nothing changes, and the call does not allocate. O(p log n) for p rows and n entries if p is at most n / 16; else
/// O(n + p log p), or O(n + p) if the rows ascend. The arrays must be equally long.
#[unsafe(no_mangle)]
pub extern "C" fn range_map_paint_many_unchecked(
    alloc: Global,
    map: &mut RangeMap,
    lo: &[i64],
    hi: &[i64],
    value: &[u64],
) -> i32
    requires his { length hi.now ≡ length lo.now }
    requires values { length value.now ≡ length lo.now }
    ensures status { IsStatus result }
    ensures ok { OnDone result (AreRowsPainted least_key greatest_key (rows lo.now hi.now value.now)
        map.old.entries map.new.entries) }
    ensures inside { AreInside nat_eq (rows lo.now hi.now value.now) map.old.entries
        → (result ≡ pos 0) × (map.new.entries ≡ map.old.entries) }
    ensures err { OnRefused result (IsPartPainted least_key greatest_key
        (rows lo.now hi.now value.now) map.old.entries map.new.entries) }
{
    map.in_hand(alloc);
    let empty = RangeMapBlaze::new(alloc);
    if are_rows_inside(map_or(map.as_ref(), &empty), lo, hi, value) {
        return DONE;
    }
    match map.as_mut() {
        Some(there) if lo.len() <= there.map.ranges_len() / ENTRIES_A_RANGE => {
            status_of(paint_rows(&mut there.map, lo, hi, value))
        }
        _ => paint_at_once(alloc, map, lo, hi, value),
    }
}

/// Returns the status of a call that only a failed allocation can stop.
pub fn status_of(outcome: Result<(), AllocError>) -> i32
    ensures { MatchResult outcome (λ done. result ≡ pos 0) (λ error. result ≡ pos 1) }
{
    match outcome {
        Ok(()) => DONE,
        Err(_) => NO_MEMORY,
    }
}

// Paints the rows of a table one by one. If an allocation fails, a first part of them is painted.
fn paint_rows(
    map: &mut RangeMapBlaze<i64, u64>,
    lo: &[i64],
    hi: &[i64],
    value: &[u64],
) -> Result<(), AllocError>
    requires his { length hi.now ≡ length lo.now }
    requires values { length value.now ≡ length lo.now }
    ensures ok { OnOk result (AreRowsPainted least_key greatest_key (rows lo.now hi.now value.now)
        map.old.entries map.new.entries) }
    ensures err { OnErr result (IsPartPainted least_key greatest_key
        (rows lo.now hi.now value.now) map.old.entries map.new.entries) }
{
    map.in_hand();
    for i in 0..lo.len() {
        let _ = map.ranges_insert(lo[i]..=hi[i], value[i])?;
    }
    Ok(())
}

// Paints the rows of a table by a union with the map of the table. If an allocation fails, none of them is painted.
#[tactic(auto, using(crate::proofs::RowLists::rows_painted))]
fn paint_at_once(alloc: Global, map: &mut RangeMap, lo: &[i64], hi: &[i64], value: &[u64]) -> i32
    requires his { length hi.now ≡ length lo.now }
    requires values { length value.now ≡ length lo.now }
    ensures status { IsStatus result }
    ensures ok { OnDone result (AreRowsPainted least_key greatest_key (rows lo.now hi.now value.now)
        map.old.entries map.new.entries) }
    ensures err { OnRefused result (IsPartPainted least_key greatest_key
        (rows lo.now hi.now value.now) map.old.entries map.new.entries) }
{
    map.in_hand(alloc);
    let over = match rows_map(alloc, lo, hi, value) {
        Ok(over) => over,
        Err(_) => return NO_MEMORY,
    };
    let empty = RangeMapBlaze::new(alloc);
    let made = map_or(map.as_ref(), &empty) | &over;
    hand_out(made, map, alloc)
}

// The map of the rows of a table, painted in order.
fn rows_map(
    alloc: Global,
    lo: &[i64],
    hi: &[i64],
    value: &[u64],
) -> Result<RangeMapBlaze<i64, u64>, AllocError>
    requires his { length hi.now ≡ length lo.now }
    requires values { length value.now ≡ length lo.now }
    ensures { IfOk result (λ over. IsCanonicalOf nat_eq least_key greatest_key
        (rows lo.now hi.now value.now) over.entries) }
{
    let table = pairs_of(alloc, lo, hi, value)?;
    let over = RangeMapBlaze::from_ranges(alloc, table)?;
    Ok(over)
}

// The rows of a table.
fn pairs_of(
    alloc: Global,
    lo: &[i64],
    hi: &[i64],
    value: &[u64],
) -> Result<Vec<(RangeInclusive<i64>, u64)>, AllocError>
    requires his { length hi.now ≡ length lo.now }
    requires values { length value.now ≡ length lo.now }
    ensures { IfOk result (λ table. map (shown_range (λ k. k) (λ v. v)) table.items
        ≡ rows lo.now hi.now value.now) }
{
    let mut table = Vec::new(alloc);
    for i in 0..lo.len() {
        table.push((lo[i]..=hi[i], value[i]))?;
    }
    Ok(table)
}

/// Paints the entries of b into a, ascending. If an allocation fails, a first part of them is painted, perhaps none. If each entry of
/// b is inside an entry of a with the same value, nothing changes, and the call does not allocate. O(m log n) for n and m entries if m
/// is at most n / 16, else O(n + m).
#[unsafe(no_mangle)]
pub extern "C" fn range_map_extend_unchecked(
    alloc: Global,
    a: &mut RangeMap,
    b: &mut RangeMap,
) -> i32
    ensures status { IsStatus result }
    ensures ok { OnDone result (IsUnion nat_eq least_key greatest_key a.old.entries b.old.entries
        a.new.entries) }
    ensures inside { AreInside nat_eq b.old.entries a.old.entries
        → (result ≡ pos 0) × (a.new.entries ≡ a.old.entries) }
    ensures err { OnRefused result (IsPartPainted least_key greatest_key b.old.entries
        a.old.entries a.new.entries) }
    ensures kept { b.new.entries ≡ b.old.entries }
    ensures same { b.new.at ≡ b.old.at }
{
    let empty = RangeMapBlaze::new(alloc);
    extend_by(alloc, a, map_or(b.as_ref(), &empty))
}

// Paints the entries of another map, if they change anything. If an allocation fails, a first part of them is painted.
#[tactic(auto, unfolding(blaze_entries::specs::Canonical::IsRunStart, blaze_entries::specs::Canonical::IsRunEnd))]
fn extend_by(alloc: Global, map: &mut RangeMap, other: &RangeMapBlaze<i64, u64>) -> i32
    ensures status { IsStatus result }
    ensures ok { OnDone result (IsUnion nat_eq least_key greatest_key map.old.entries
        other.now.entries map.new.entries) }
    ensures inside { AreInside nat_eq other.now.entries map.old.entries
        → (result ≡ pos 0) × (map.new.entries ≡ map.old.entries) }
    ensures err { OnRefused result (IsPartPainted least_key greatest_key other.now.entries
        map.old.entries map.new.entries) }
{
    map.in_hand(alloc);
    other.in_hand();
    let empty = RangeMapBlaze::new(alloc);
    if has_entries_of(map_or(map.as_ref(), &empty), other) {
        return DONE;
    }
    match map.as_mut() {
        Some(there) if other.ranges_len() <= there.map.ranges_len() / ENTRIES_A_RANGE => {
            status_of(extend_few(&mut there.map, other))
        }
        _ => extend_at_once(alloc, map, other),
    }
}

// Paints the entries of another map one by one. If an allocation fails, a first part of them is painted.
fn extend_few(
    map: &mut RangeMapBlaze<i64, u64>,
    other: &RangeMapBlaze<i64, u64>,
) -> Result<(), AllocError>
    ensures ok { OnOk result (IsUnion nat_eq least_key greatest_key map.old.entries
        other.now.entries map.new.entries) }
    ensures err { OnErr result (IsPartPainted least_key greatest_key other.now.entries
        map.old.entries map.new.entries) }
{
    map.in_hand();
    other.in_hand();
    map.extend_with(other)
}

// Paints the entries of another map by a union. If an allocation fails, none of them is painted.
fn extend_at_once(alloc: Global, map: &mut RangeMap, other: &RangeMapBlaze<i64, u64>) -> i32
    ensures status { IsStatus result }
    ensures ok { OnDone result (IsUnion nat_eq least_key greatest_key map.old.entries
        other.now.entries map.new.entries) }
    ensures err { OnRefused result (IsPartPainted least_key greatest_key other.now.entries
        map.old.entries map.new.entries) }
{
    map.in_hand(alloc);
    let empty = RangeMapBlaze::new(alloc);
    let made = map_or(map.as_ref(), &empty) | other;
    hand_out(made, map, alloc)
}

/// Replaces `out` by the map of a table whose rows are in order: no range is empty, and each starts above the end of the one before. If
/// they are not in order, or an allocation fails, `out` is unchanged. O(p) for p rows. The arrays must be equally long.
#[unsafe(no_mangle)]
pub extern "C" fn range_map_from_table_unchecked(
    alloc: Global,
    lo: &[i64],
    hi: &[i64],
    value: &[u64],
    out: &mut RangeMap,
) -> i32
    requires his { length hi.now ≡ length lo.now }
    requires values { length value.now ≡ length lo.now }
    ensures status { IsLoadStatus result }
    ensures ok { OnDone result (IsCanonicalOf nat_eq least_key greatest_key
        (rows lo.now hi.now value.now) out.new.entries) }
    ensures ordered { AreOrdered (rows lo.now hi.now value.now) → IsStatus result }
    ensures faulty { (¬ AreOrdered (rows lo.now hi.now value.now)) → result ≡ pos 4 }
    ensures err { OnRefused result (out.new.entries ≡ out.old.entries) }
{
    if !range_table_is_ordered_unchecked(lo, hi, value) {
        return NOT_ORDERED;
    }
    hand_out(rows_map(alloc, lo, hi, value), out, alloc)
}
