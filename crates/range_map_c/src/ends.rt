//! The least and the greatest key that has a value. No call allocates; each takes O(log n) for n entries.
ghost use Rattle.std.specs.Prelude.{◌≡◌, [], IsFalse, MatchBool, MatchOption};
ghost use Rattle.blaze_entries.specs.Entries.{at};
ghost use Rattle.range_map_blaze.specs.Pairs.{IsFirstPair, IsLastPair};

use crate::handle::RangeMap;
use range_map_blaze::RangeMapBlaze;

/// Returns whether a key has a value, and writes the least of those keys with its value.
#[unsafe(no_mangle)]
pub extern "C" fn range_map_first_unchecked(
    map: &mut RangeMap,
    key: &mut i64,
    value: &mut u64,
) -> bool
    ensures pair { MatchBool result (IsFirstPair (at map.old.entries) key.new value.new)
        (map.old.entries ≡ []) }
    ensures unwritten { IsFalse result → (key.new ≡ key.old) × (value.new ≡ value.old) }
    ensures kept { map.new.entries ≡ map.old.entries }
    ensures same { map.new.at ≡ map.old.at }
{
    let found = match map.as_ref() {
        Some(map) => first_pair(&map.map),
        None => None,
    };
    match found {
        Some((there, held)) => {
            *key = there;
            *value = held;
            true
        }
        None => false,
    }
}

/// Returns whether a key has a value, and writes the greatest of those keys with its value.
#[unsafe(no_mangle)]
pub extern "C" fn range_map_last_unchecked(
    map: &mut RangeMap,
    key: &mut i64,
    value: &mut u64,
) -> bool
    ensures pair { MatchBool result (IsLastPair (at map.old.entries) key.new value.new)
        (map.old.entries ≡ []) }
    ensures unwritten { IsFalse result → (key.new ≡ key.old) × (value.new ≡ value.old) }
    ensures kept { map.new.entries ≡ map.old.entries }
    ensures same { map.new.at ≡ map.old.at }
{
    let found = match map.as_ref() {
        Some(map) => last_pair(&map.map),
        None => None,
    };
    match found {
        Some((there, held)) => {
            *key = there;
            *value = held;
            true
        }
        None => false,
    }
}

// The least key that has a value, with its value.
fn first_pair(map: &RangeMapBlaze<i64, u64>) -> Option<(i64, u64)>
    ensures { MatchOption result (map.now.entries ≡ [])
        (λ pair. IsFirstPair (at map.now.entries) pair.0 pair.1) }
{
    match map.first_key_value() {
        Some((key, value)) => Some((key, *value)),
        None => None,
    }
}

// The greatest key that has a value, with its value.
fn last_pair(map: &RangeMapBlaze<i64, u64>) -> Option<(i64, u64)>
    ensures { MatchOption result (map.now.entries ≡ [])
        (λ pair. IsLastPair (at map.now.entries) pair.0 pair.1) }
{
    match map.last_key_value() {
        Some((key, value)) => Some((key, *value)),
        None => None,
    }
}
