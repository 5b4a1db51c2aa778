//! Maps made, freed, emptied and copied.
ghost use denote.RawPtr.{null_ptr};
ghost use Rattle.std.specs.Prelude.{◌≡◌, [], pos};
ghost use Rattle.std.specs.Prelude.{nat_eq};
ghost use Rattle.blaze_entries.specs.Entries.{SameEntries};
ghost use Rattle.range_map_c.specs.Status.{IsStatus, OnDone, OnRefused};

use super::{RangeMap, hand_out, map_or};
use range_map_blaze::RangeMapBlaze;
use std::alloc::Global;
use std::mem;

/// Makes the struct an empty map. Does not allocate. What the struct contained is not read and not freed. O(1).
#[unsafe(no_mangle)]
pub extern "C" fn range_map_new(alloc: Global, map: &mut RangeMap)
    ensures empty { map.new.entries ≡ [] }
    ensures nothing { map.new.at ≡ null_ptr }
{
    mem::forget(mem::replace(map, RangeMap::none(alloc)));
}

/// Frees a map, and leaves the empty map, which may be freed again. O(n) for n entries.
#[unsafe(no_mangle)]
pub extern "C" fn range_map_free_unchecked(alloc: Global, map: &mut RangeMap)
    ensures empty { map.new.entries ≡ [] }
    ensures nothing { map.new.at ≡ null_ptr }
{
    *map = RangeMap::none(alloc);
}

/// Removes all keys, and frees the map's memory. O(n) for n entries.
#[unsafe(no_mangle)]
pub extern "C" fn range_map_clear(alloc: Global, map: &mut RangeMap)
    ensures empty { map.new.entries ≡ [] }
    ensures nothing { map.new.at ≡ null_ptr }
{
    *map = RangeMap::none(alloc);
}

/// Replaces `out` by a copy of a map. If an allocation fails, `out` is unchanged. A copy of the empty map does not allocate. O(n) for
/// n entries.
#[unsafe(no_mangle)]
pub extern "C" fn range_map_copy_unchecked(
    alloc: Global,
    map: &mut RangeMap,
    out: &mut RangeMap,
) -> i32
    ensures status { IsStatus result }
    ensures ok { OnDone result (SameEntries nat_eq map.old.entries out.new.entries) }
    ensures empty { map.old.entries ≡ [] → result ≡ pos 0 }
    ensures err { OnRefused result (out.new.entries ≡ out.old.entries) }
    ensures kept { map.new.entries ≡ map.old.entries }
    ensures same { map.new.at ≡ map.old.at }
{
    let copied = match map.as_ref() {
        Some(map) if !map.map.is_empty() => map.map.clone(),
        _ => Ok(RangeMapBlaze::new(alloc)),
    };
    hand_out(copied, out, alloc)
}
