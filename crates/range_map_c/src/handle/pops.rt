//! The least and the greatest key that has a value, removed. Each call takes O(log n) for n entries.
ghost use Rattle.std.specs.Prelude.{◌≡◌, pos, [], MatchBool, nat_eq};
ghost use Rattle.range_map_blaze.specs.Pairs.{PopsFirst, PopsLast};
ghost use Rattle.range_map_c.specs.Handle.{least_key, greatest_key};
ghost use Rattle.range_map_c.specs.Status.{IsStatus, OnDone, OnRefused};

use super::RangeMap;
use crate::{DONE, NO_MEMORY};

/// Removes the least key that has a value, and writes whether there was one, and that key with its value. If an allocation fails, the
/// map is unchanged. The empty map does not allocate.
#[unsafe(no_mangle)]
pub extern "C" fn range_map_pop_first_unchecked(
    map: &mut RangeMap,
    had: &mut bool,
    key: &mut i64,
    value: &mut u64,
) -> i32
    ensures status { IsStatus result }
    ensures ok { OnDone result (MatchBool had.new (PopsFirst nat_eq least_key greatest_key key.new
        value.new map.old.entries map.new.entries) ((map.old.entries ≡ [])
        × (map.new.entries ≡ []))) }
    ensures empty { map.old.entries ≡ [] → result ≡ pos 0 }
    ensures err { OnRefused result (map.new.entries ≡ map.old.entries) }
{
    let popped = match map.as_mut() {
        Some(map) => map.map.pop_first(),
        None => Ok(None),
    };
    match popped {
        Ok(Some((there, held))) => {
            *had = true;
            *key = there;
            *value = held;
            DONE
        }
        Ok(None) => {
            *had = false;
            DONE
        }
        Err(_) => NO_MEMORY,
    }
}

/// Removes the greatest key that has a value, and writes whether there was one, and that key with its value. If an allocation fails, the
/// map is unchanged. The empty map does not allocate.
#[unsafe(no_mangle)]
pub extern "C" fn range_map_pop_last_unchecked(
    map: &mut RangeMap,
    had: &mut bool,
    key: &mut i64,
    value: &mut u64,
) -> i32
    ensures status { IsStatus result }
    ensures ok { OnDone result (MatchBool had.new (PopsLast nat_eq least_key greatest_key key.new
        value.new map.old.entries map.new.entries) ((map.old.entries ≡ [])
        × (map.new.entries ≡ []))) }
    ensures empty { map.old.entries ≡ [] → result ≡ pos 0 }
    ensures err { OnRefused result (map.new.entries ≡ map.old.entries) }
{
    let popped = match map.as_mut() {
        Some(map) => map.map.pop_last(),
        None => Ok(None),
    };
    match popped {
        Ok(Some((there, held))) => {
            *had = true;
            *key = there;
            *value = held;
            DONE
        }
        Ok(None) => {
            *had = false;
            DONE
        }
        Err(_) => NO_MEMORY,
    }
}
