//! Lookups in a table in the caller's own arrays: row i gives the keys lo[i] to hi[i] the value value[i]. No function allocates or
//! writes to these arrays, so several threads may look up in one table at the same time.
ghost use Rattle.std.specs.Prelude.{◌≡◌, ℕ, ◌+◌, ◌<◌, ◌≤◌, ◌<ℤ◌, ◌+ℤ◌, length, pos};
ghost use Rattle.std.specs.Prelude.{Some, None, IsFalse, MatchBool, slice_index_or};
ghost use Rattle.blaze_entries.specs.Entries.{entry, at, entry_at};
ghost use Rattle.blaze_entries.specs.Ending.{overlapping};
ghost use Rattle.blaze_table.specs.Gap.{IsGap};
ghost use Rattle.range_map_c.specs.Handle.{least_key, greatest_key};
ghost use Rattle.range_map_c.specs.Ordered.{AreOrdered};
ghost use Rattle.range_map_c.specs.Tables.{rows};
ghost use Rattle.range_map_c.specs.Told.{told, told_entry, first_of, last_of};

use crate::table_search::{first_ending_from, rank, read_row};

/// Returns whether the key has a value, and writes that value. O(log n) for n rows.
///
/// Conditions: the arrays are equally long, and `range_table_is_ordered_unchecked` returns true for them.
#[unsafe(no_mangle)]
pub extern "C" fn range_table_get_unchecked(
    lo: &[i64],
    hi: &[i64],
    value: &[u64],
    key: i64,
    found: &mut u64,
) -> bool
    requires his { length hi.now ≡ length lo.now }
    requires values { length value.now ≡ length lo.now }
    requires ordered { AreOrdered (rows lo.now hi.now value.now) }
    ensures value { told result found.new ≡ at (rows lo.now hi.now value.now) key }
    ensures unwritten { IsFalse result → found.new ≡ found.old }
{
    let n = rank(lo, key);
    if n == 0 {
        return false;
    }
    if key <= hi[n - 1] {
        *found = value[n - 1];
        return true;
    }
    false
}

/// Writes the row that holds the key and returns true. If the key has no value, writes the greatest range of keys without a value
/// that holds the key, writes the value 0 and returns false. O(log n) for n rows.
///
/// Conditions: the arrays are equally long, and `range_table_is_ordered_unchecked` returns true for them.
#[unsafe(no_mangle)]
pub extern "C" fn range_table_entry_or_gap_at_unchecked(
    lo: &[i64],
    hi: &[i64],
    value: &[u64],
    key: i64,
    start: &mut i64,
    end: &mut i64,
    found: &mut u64,
) -> bool
    requires his { length hi.now ≡ length lo.now }
    requires values { length value.now ≡ length lo.now }
    requires ordered { AreOrdered (rows lo.now hi.now value.now) }
    ensures piece { MatchBool result
        (entry_at (rows lo.now hi.now value.now) key ≡ Some (entry start.new end.new found.new))
        ((at (rows lo.now hi.now value.now) key ≡ None)
        × IsGap least_key greatest_key (at (rows lo.now hi.now value.now)) key start.new end.new
        × (found.new ≡ 0)) }
{
    let row = first_ending_from(lo, hi, key);
    if row < lo.len() && lo[row] <= key {
        return read_row(lo, hi, value, row, start, end, found);
    }
    *start = gap_start(hi, row);
    *end = gap_end(lo, row);
    *found = 0;
    false
}

// Returns the key above the end of the row before `row`, or the least key if `row` is the first.
fn gap_start(hi: &[i64], row: usize) -> i64
    requires within { row ≤ length hi.now }
    requires room { (i : ℕ) → row ≡ i + 1 → slice_index_or hi.now i (pos 0) <ℤ greatest_key }
    ensures first { row ≡ 0 → result ≡ least_key }
    ensures later { (i : ℕ) → row ≡ i + 1 → result ≡ slice_index_or hi.now i (pos 0) +ℤ pos 1 }
{
    if row == 0 {
        return i64::MIN;
    }
    hi[row - 1] + 1
}

// Returns the key below the start of `row`, or the greatest key if there is no such row.
fn gap_end(lo: &[i64], row: usize) -> i64
    requires room { row < length lo.now → least_key <ℤ slice_index_or lo.now row (pos 0) }
    ensures last { length lo.now ≤ row → result ≡ greatest_key }
    ensures earlier { row < length lo.now → result +ℤ pos 1 ≡ slice_index_or lo.now row (pos 0) }
{
    if row >= lo.len() {
        return i64::MAX;
    }
    lo[row] - 1
}

/// Returns whether a row ends at the key or above it, and writes the first of those rows. O(log n) for n rows.
///
/// Conditions: the arrays are equally long, and `range_table_is_ordered_unchecked` returns true for them.
#[unsafe(no_mangle)]
pub extern "C" fn range_table_next_unchecked(
    lo: &[i64],
    hi: &[i64],
    value: &[u64],
    key: i64,
    start: &mut i64,
    end: &mut i64,
    found: &mut u64,
) -> bool
    requires his { length hi.now ≡ length lo.now }
    requires values { length value.now ≡ length lo.now }
    requires ordered { AreOrdered (rows lo.now hi.now value.now) }
    ensures entry { told_entry result start.new end.new found.new
        ≡ first_of (overlapping key greatest_key (rows lo.now hi.now value.now)) }
    ensures unwritten { IsFalse result
        → (start.new ≡ start.old) × (end.new ≡ end.old) × (found.new ≡ found.old) }
{
    let row = first_ending_from(lo, hi, key);
    read_row(lo, hi, value, row, start, end, found)
}

/// Returns whether a row starts at the key or below it, and writes the last of those rows. O(log n) for n rows.
///
/// Conditions: the arrays are equally long, and `range_table_is_ordered_unchecked` returns true for them.
#[unsafe(no_mangle)]
pub extern "C" fn range_table_previous_unchecked(
    lo: &[i64],
    hi: &[i64],
    value: &[u64],
    key: i64,
    start: &mut i64,
    end: &mut i64,
    found: &mut u64,
) -> bool
    requires his { length hi.now ≡ length lo.now }
    requires values { length value.now ≡ length lo.now }
    requires ordered { AreOrdered (rows lo.now hi.now value.now) }
    ensures entry { told_entry result start.new end.new found.new
        ≡ last_of (overlapping least_key key (rows lo.now hi.now value.now)) }
    ensures unwritten { IsFalse result
        → (start.new ≡ start.old) × (end.new ≡ end.old) × (found.new ≡ found.old) }
{
    let n = rank(lo, key);
    if n == 0 {
        return false;
    }
    read_row(lo, hi, value, n - 1, start, end, found)
}
