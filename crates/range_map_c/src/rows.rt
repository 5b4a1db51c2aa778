//! Entries read into arrays: first keys, last keys and values, each in an array of its own.
ghost use Rattle.std.specs.Prelude.{◌≡◌, ◌+◌, ◌<◌, length, min, take, drop, reverse, [], ◌∷◌, ◌++◌, MatchOption};
ghost use Rattle.std.specs.Prelude.{IsTrue, IsFalse};
ghost use Rattle.blaze_entries.specs.Entries.{entry};
ghost use Rattle.blaze_entries.specs.Ending.{overlapping};
ghost use Rattle.range_map_c.specs.Handle.{least_key, greatest_key};
ghost use Rattle.range_map_c.specs.Tables.{rows};

use crate::handle::{RangeMap, map_or};
use range_map_blaze::{Overlapping, RangeMapBlaze};
use std::alloc::Global;
use std::marker::Model;

/// Writes the entries that end at a key or above it, ascending, until the arrays are full, and returns how many it wrote. O(log n)
/// for n entries, and O(1) for each that is written. It does not allocate. The arrays must be equally long.
#[unsafe(no_mangle)]
pub extern "C" fn range_map_entries_into_unchecked(
    alloc: Global,
    map: &mut RangeMap,
    from: i64,
    lo: &mut [i64],
    hi: &mut [i64],
    value: &mut [u64],
) -> u64
    requires his { length hi.old ≡ length lo.old }
    requires values { length value.old ≡ length lo.old }
    ensures rows { rows (take result lo.new) (take result hi.new) (take result value.new)
        ≡ take result (overlapping from greatest_key map.old.entries) }
    ensures all { result ≡ min (length lo.old)
        (length (overlapping from greatest_key map.old.entries)) }
    ensures behind { (drop result lo.new ≡ drop result lo.old)
        × (drop result hi.new ≡ drop result hi.old)
        × (drop result value.new ≡ drop result value.old) }
    ensures kept { map.new.entries ≡ map.old.entries }
    ensures same { map.new.at ≡ map.old.at }
{
    let empty = RangeMapBlaze::new(alloc);
    let map = map_or(map.as_ref(), &empty);
    write_rows(Rows::ascending(map.overlapping(from..)), lo, hi, value) as u64
}

/// Writes the entries that start at a key or below it, descending, until the arrays are full, and returns how many it wrote. O(log n)
/// for n entries, and O(1) for each that is written. It does not allocate. The arrays must be equally long.
#[unsafe(no_mangle)]
pub extern "C" fn range_map_entries_back_into_unchecked(
    alloc: Global,
    map: &mut RangeMap,
    from: i64,
    lo: &mut [i64],
    hi: &mut [i64],
    value: &mut [u64],
) -> u64
    requires his { length hi.old ≡ length lo.old }
    requires values { length value.old ≡ length lo.old }
    ensures rows { rows (take result lo.new) (take result hi.new) (take result value.new)
        ≡ take result (reverse (overlapping least_key from map.old.entries)) }
    ensures all { result ≡ min (length lo.old)
        (length (reverse (overlapping least_key from map.old.entries))) }
    ensures behind { (drop result lo.new ≡ drop result lo.old)
        × (drop result hi.new ≡ drop result hi.old)
        × (drop result value.new ≡ drop result value.old) }
    ensures kept { map.new.entries ≡ map.old.entries }
    ensures same { map.new.at ≡ map.old.at }
{
    let empty = RangeMapBlaze::new(alloc);
    let map = map_or(map.as_ref(), &empty);
    write_rows(Rows::descending(map.overlapping(..=from)), lo, hi, value) as u64
}

// Entries in the order in which they are written. Contracts see the list of those that are not written yet.
#[derive(Drop)]
struct Rows<'a> {
    entries: Overlapping<'a, i64, u64>,
    is_descending: bool,
}

impl<'a> Model for Rows<'a> {
    ghost use Rattle.std.specs.Prelude.{ℕ, List, reverse, if◌then◌else◌};
    ghost use Rattle.std.specs.Coded.{coded_list, coded_ℕ};
    ghost use Rattle.blaze_entries.specs.Entries.{Entry, entry_code};

    ghost Value = { List (Entry ℕ) };

    ghost coded = { coded_list (entry_code coded_ℕ) };

    ghost view = { λ r. if r.is_descending then reverse r.entries else r.entries };
}

impl<'a> Rows<'a> {
    fn ascending(entries: Overlapping<'a, i64, u64>) -> Self
        ensures { result ≡ entries.entry }
    {
        Rows {
            entries,
            is_descending: false,
        }
    }

    fn descending(entries: Overlapping<'a, i64, u64>) -> Self
        ensures { result ≡ reverse entries.entry }
    {
        Rows {
            entries,
            is_descending: true,
        }
    }

    // The next entry: first key, last key and value.
    fn next(&mut self) -> Option<(i64, i64, u64)>
        ensures { MatchOption result ((self.old ≡ []) × (self.new ≡ []))
            (λ row. self.old ≡ entry row.0 row.1 row.2 ∷ self.new) }
    {
        let next = if self.is_descending {
            self.entries.next_back()
        } else {
            self.entries.next()
        };
        match next {
            Some((range, value)) => {
                let (start, end) = range.into_inner();
                Some((start, end, *value))
            }
            None => None,
        }
    }
}

// Writes entries until the arrays are full, and returns how many were written.
fn write_rows(entries: Rows<'_>, lo: &mut [i64], hi: &mut [i64], value: &mut [u64]) -> usize
    requires his { length hi.old ≡ length lo.old }
    requires values { length value.old ≡ length lo.old }
    ensures rows { rows (take result lo.new) (take result hi.new) (take result value.new)
        ≡ take result entries.entry }
    ensures all { result ≡ min (length lo.old) (length entries.entry) }
    ensures behind { (drop result lo.new ≡ drop result lo.old)
        × (drop result hi.new ≡ drop result hi.old)
        × (drop result value.new ≡ drop result value.old) }
{
    let mut entries = entries;
    for i in 0..lo.len() {
        if !write_row(&mut entries, i, lo, hi, value) {
            return i;
        }
    }
    lo.len()
}

// Writes the next entry at a position of the arrays, and returns whether there was one.
fn write_row(
    entries: &mut Rows<'_>,
    i: usize,
    lo: &mut [i64],
    hi: &mut [i64],
    value: &mut [u64],
) -> bool
    requires place { i < length lo.old }
    requires his { length hi.old ≡ length lo.old }
    requires values { length value.old ≡ length lo.old }
    ensures row { IsTrue result
        → rows (take (i + 1) lo.new) (take (i + 1) hi.new) (take (i + 1) value.new) ++ entries.new
        ≡ rows (take i lo.old) (take i hi.old) (take i value.old) ++ entries.old }
    ensures none { IsFalse result → (entries.old ≡ []) × (lo.new ≡ lo.old) × (hi.new ≡ hi.old)
        × (value.new ≡ value.old) }
    ensures behind { (drop (i + 1) lo.new ≡ drop (i + 1) lo.old)
        × (drop (i + 1) hi.new ≡ drop (i + 1) hi.old)
        × (drop (i + 1) value.new ≡ drop (i + 1) value.old) }
{
    match entries.next() {
        Some((start, end, there)) => {
            lo[i] = start;
            hi[i] = end;
            value[i] = there;
            true
        }
        None => false,
    }
}
