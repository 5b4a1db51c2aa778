//! Values set on keys and ranges, and keys removed.
ghost use Rattle.std.specs.Prelude.{◌≡◌, ◌↔◌, ◌<ℤ◌, pos, Some, None, IsTrue};
ghost use Rattle.std.specs.Prelude.{nat_eq};
ghost use Rattle.blaze_entries.specs.Entries.{entry, at};
ghost use Rattle.blaze_entries.specs.Count.{keys_in};
ghost use Rattle.blaze_entries.specs.Cut.{IsKeyRemoved, IsRangeCut, IsAmongOthers, GoesOnAbove};
ghost use Rattle.blaze_table.specs.Filled.{IsFilled, IsMappedFrom};
ghost use Rattle.blaze_table.specs.Gap.{IsClearFrom};
ghost use Rattle.blaze_entries.specs.Painted.{IsPainted, IsInside};
ghost use Rattle.range_map_c.specs.Gaps.{HasKeyFrom};
ghost use Rattle.range_map_c.specs.Handle.{least_key, greatest_key};
ghost use Rattle.range_map_c.specs.Status.{IsStatus, IsFillStatus, OnDone, OnRefused, OnTaken};
ghost use Rattle.range_map_c.specs.Told.{told};

use super::RangeMap;
use crate::gaps::range_map_any_unchecked;
use crate::{DONE, NO_MEMORY, TAKEN};
use std::alloc::Global;

/// Sets the value of every key from `lo` to `hi`, and writes whether the number of keys with a value changed. If an allocation
/// fails, the map is unchanged. A range without a key, and one inside an entry with the same value, does not allocate. O(log n) for
/// each of n entries that the range touches.
#[unsafe(no_mangle)]
pub extern "C" fn range_map_paint_unchecked(
    alloc: Global,
    map: &mut RangeMap,
    lo: i64,
    hi: i64,
    value: u64,
    changed: &mut bool,
) -> i32
    ensures status { IsStatus result }
    ensures ok { OnDone result (IsPainted nat_eq least_key greatest_key (entry lo hi value)
        map.old.entries map.new.entries) }
    ensures changed { OnDone result (IsTrue changed.new ↔ (¬ (keys_in map.new.entries
        ≡ keys_in map.old.entries))) }
    ensures nowhere { hi <ℤ lo → (result ≡ pos 0) × (map.new.entries ≡ map.old.entries) }
    ensures inside { IsInside nat_eq lo hi value map.old.entries
        → (result ≡ pos 0) × (map.new.entries ≡ map.old.entries) }
    ensures err { OnRefused result (map.new.entries ≡ map.old.entries) }
{
    if hi < lo {
        map.in_hand(alloc);
        *changed = false;
        return DONE;
    }
    let mut boxed = match map.take_or_make(alloc) {
        Ok(boxed) => boxed,
        Err(_) => return NO_MEMORY,
    };
    let painted = boxed.map.ranges_insert(lo..=hi, value);
    map.set_map(boxed);
    match painted {
        Ok(answer) => {
            *changed = answer;
            DONE
        }
        Err(_) => NO_MEMORY,
    }
}

/// Sets the value of every key from `lo` to `hi` that has none, and writes whether the number of keys with a value changed. If an
/// allocation fails, the map is unchanged. A range without such a key does not allocate. O(log n) for each gap in the range, and O(1)
/// for each entry.
#[unsafe(no_mangle)]
pub extern "C" fn range_map_fill_unchecked(
    alloc: Global,
    map: &mut RangeMap,
    lo: i64,
    hi: i64,
    value: u64,
    changed: &mut bool,
) -> i32
    ensures status { IsStatus result }
    ensures ok { OnDone result (IsFilled nat_eq least_key greatest_key (entry lo hi value)
        map.old.entries map.new.entries) }
    ensures changed { OnDone result (IsTrue changed.new ↔ (¬ (keys_in map.new.entries
        ≡ keys_in map.old.entries))) }
    ensures held { IsMappedFrom (at map.old.entries) lo hi
        → (result ≡ pos 0) × (map.new.entries ≡ map.old.entries) }
    ensures err { OnRefused result (map.new.entries ≡ map.old.entries) }
{
    if hi < lo {
        map.in_hand(alloc);
        *changed = false;
        return DONE;
    }
    let mut boxed = match map.take_or_make(alloc) {
        Ok(boxed) => boxed,
        Err(_) => return NO_MEMORY,
    };
    let filled = boxed.map.ranges_insert_absent(lo..=hi, value);
    map.set_map(boxed);
    match filled {
        Ok(answer) => {
            *changed = answer;
            DONE
        }
        Err(_) => NO_MEMORY,
    }
}

/// Sets the value of every key from `lo` to `hi` if none of them has a value, and else changes nothing. If an allocation fails, the map
/// is unchanged. O(log n) for n entries.
#[unsafe(no_mangle)]
pub extern "C" fn range_map_fill_if_free(
    alloc: Global,
    map: &mut RangeMap,
    lo: i64,
    hi: i64,
    value: u64,
) -> i32
    ensures status { IsFillStatus result }
    ensures ok { OnDone result (IsPainted nat_eq least_key greatest_key (entry lo hi value)
        map.old.entries map.new.entries) }
    ensures taken { OnTaken result (HasKeyFrom (at map.old.entries) lo hi)
        (IsClearFrom (at map.old.entries) lo hi) }
    ensures nowhere { hi <ℤ lo → (result ≡ pos 0) × (map.new.entries ≡ map.old.entries) }
    ensures err { OnRefused result (map.new.entries ≡ map.old.entries) }
{
    if range_map_any_unchecked(map, lo, hi) {
        return TAKEN;
    }
    let mut changed = false;
    range_map_paint_unchecked(alloc, map, lo, hi, value, &mut changed)
}

/// Sets the value of one key, and writes whether the key had a value, and that value. If an allocation fails, the map is unchanged.
/// A key that has the value does not allocate. O(log n) for n entries.
#[unsafe(no_mangle)]
pub extern "C" fn range_map_insert_unchecked(
    alloc: Global,
    map: &mut RangeMap,
    key: i64,
    value: u64,
    had: &mut bool,
    old: &mut u64,
) -> i32
    ensures status { IsStatus result }
    ensures ok { OnDone result (IsPainted nat_eq least_key greatest_key (entry key key value)
        map.old.entries map.new.entries) }
    ensures old { OnDone result (told had.new old.new ≡ at map.old.entries key) }
    ensures inside { IsInside nat_eq key key value map.old.entries
        → (result ≡ pos 0) × (map.new.entries ≡ map.old.entries) }
    ensures err { OnRefused result (map.new.entries ≡ map.old.entries) }
{
    let mut boxed = match map.take_or_make(alloc) {
        Ok(boxed) => boxed,
        Err(_) => return NO_MEMORY,
    };
    let before = boxed.map.get(key).copied();
    let painted = boxed.map.ranges_insert(key..=key, value);
    map.set_map(boxed);
    match painted {
        Ok(_) => {
            tell(before, had, old);
            DONE
        }
        Err(_) => NO_MEMORY,
    }
}

/// Removes every key from `lo` to `hi`, and writes whether the number of keys with a value changed. If an allocation fails, the map
/// is unchanged. It allocates only if an entry with keys of the range continues above it. O(log n) for each of n entries that the
/// range touches.
#[tactic(auto, unfolding(blaze_entries::specs::Canonical::IsRunStart, blaze_entries::specs::Canonical::IsRunEnd))]
#[unsafe(no_mangle)]
pub extern "C" fn range_map_remove_range_unchecked(
    map: &mut RangeMap,
    lo: i64,
    hi: i64,
    changed: &mut bool,
) -> i32
    ensures status { IsStatus result }
    ensures ok { OnDone result (IsRangeCut nat_eq least_key greatest_key lo hi map.old.entries
        map.new.entries) }
    ensures changed { OnDone result (IsTrue changed.new ↔ (¬ (keys_in map.new.entries
        ≡ keys_in map.old.entries))) }
    ensures nowhere { hi <ℤ lo → (result ≡ pos 0) × (map.new.entries ≡ map.old.entries) }
    ensures refused { OnRefused result (GoesOnAbove hi map.old.entries) }
    ensures err { OnRefused result (map.new.entries ≡ map.old.entries) }
{
    let Some(there) = map.as_mut() else {
        *changed = false;
        return DONE;
    };
    let before = there.map.len();
    let removed = there.map.ranges_remove(lo..=hi);
    let after = there.map.len();
    match removed {
        Ok(()) => {
            *changed = after != before;
            DONE
        }
        Err(_) => NO_MEMORY,
    }
}

/// Removes one key, and writes whether the key had a value, and that value. If an allocation fails, the map is unchanged. It
/// allocates only if the entry of the key has other keys. O(log n) for n entries.
#[tactic(auto, unfolding(blaze_entries::specs::Canonical::IsRunStart, blaze_entries::specs::Canonical::IsRunEnd))]
#[unsafe(no_mangle)]
pub extern "C" fn range_map_remove_unchecked(
    map: &mut RangeMap,
    key: i64,
    had: &mut bool,
    old: &mut u64,
) -> i32
    ensures status { IsStatus result }
    ensures ok { OnDone result (IsKeyRemoved nat_eq least_key greatest_key key map.old.entries
        map.new.entries) }
    ensures old { OnDone result (told had.new old.new ≡ at map.old.entries key) }
    ensures refused { OnRefused result (IsAmongOthers key map.old.entries) }
    ensures err { OnRefused result (map.new.entries ≡ map.old.entries) }
{
    let Some(there) = map.as_mut() else {
        *had = false;
        return DONE;
    };
    match there.map.remove(key) {
        Ok(answer) => {
            tell(answer, had, old);
            DONE
        }
        Err(_) => NO_MEMORY,
    }
}

/// Writes the value, if there is one, and whether there is one.
pub fn tell(found: Option<u64>, had: &mut bool, value: &mut u64)
    ensures { told had.new value.new ≡ found }
{
    match found {
        Some(there) => {
            *had = true;
            *value = there;
        }
        None => *had = false,
    }
}
