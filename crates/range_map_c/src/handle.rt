//! The struct that C holds, and the only unsafe code: a box of the map behind a pointer, which is null where no key has a value
//! yet. The files in `handle/` have the calls that change a map. They alone can name what is private here. Other files borrow the map
//! to be read (`as_ref`).
ghost use denote.RawPtr.{null_ptr};
ghost use Rattle.std.specs.Prelude.{◌≡◌, ℕ, pos, List, [], MatchOption, IfOk, IsOkAnd, OnErr};
ghost use Rattle.std.specs.Box.Ownership.{box_owns};
ghost use Rattle.std_heap.specs.contracts.GlobalAllocator.TheImpl.{ghosts};
ghost use Rattle.blaze_entries.specs.Entries.{Entry};
ghost use Rattle.range_map_c.specs.Handle.{entries_code, handle_owns};
ghost use Rattle.range_map_c.specs.Status.{IsStatus, OnDone, OnRefused};

mod bulk;
mod changes;
mod combine;
mod makes;
mod operators;
mod pops;

use crate::{DONE, NO_MEMORY};
use range_map_blaze::RangeMapBlaze;
use std::alloc::{AllocError, Global};
use std::marker::Model;
use std::mem;
use std::ptr::null_mut;

/// The map itself.
#[derive(Drop)]
pub struct Map {
    pub map: RangeMapBlaze<i64, u64>,
}

// A box taken apart.
struct Parts<T> {
    at: *mut T,
    alloc: Global,
    ghost value: { T },
}

impl<T> Model for Parts<T> {
    ghost also_owns = { λ p. box_owns (ghosts.dealloc_token p.alloc) T.row p.at p.value };
}

impl<T: Drop> Parts<T> {
    fn of(boxed: Box<T>) -> Parts<T>
        ensures { result.value ≡ boxed.value }
    {
        let (at, alloc) = Box::into_raw_with_allocator(boxed);
        Parts { at, alloc }
    }
}

/// A map as C holds it. Contracts see its entries, ascending.
#[repr(C)]
pub struct RangeMap {
    at: *mut (),
    alloc: Global,
    pub ghost entries: { List (Entry ℕ) } by { entries_code },
}

impl Model for RangeMap {
    ghost also_owns = { λ m. handle_owns m.alloc m.at m.entries };
}

// It owns nothing, or a box of a map of plain data, which may go to another thread.
unsafe impl Send for RangeMap {}

impl Drop for RangeMap {
    fn drop(self) {
        drop(self.into_box());
    }
}

impl RangeMap {
    // Makes an empty map. Does not allocate.
    fn none(alloc: Global) -> RangeMap
        ensures empty { result.entries ≡ [] }
        ensures nothing { result.at ≡ null_ptr }
    {
        RangeMap {
            at: null_mut(),
            alloc,
        }
    }

    fn of_parts(parts: Parts<Map>) -> RangeMap
        ensures { result.entries ≡ parts.value.map.entries }
    {
        let Parts { at, alloc } = parts;
        RangeMap {
            at: at as *mut (),
            alloc,
        }
    }

    fn into_box(self) -> Option<Box<Map>>
        ensures { MatchOption result (self.entries ≡ [])
            (λ boxed. self.entries ≡ boxed.value.map.entries) }
    {
        let RangeMap { at, alloc } = self;
        if at.is_null() {
            return None;
        }
        Some(unsafe { Box::from_raw(alloc, at as *mut Map) })
    }

    // Takes the map out to be changed, and leaves an empty one. If the struct has no map yet, makes an empty one. If an allocation
    // fails, the struct is unchanged.
    fn take_or_make(&mut self, alloc: Global) -> Result<Box<Map>, AllocError>
        ensures map { IfOk result (λ boxed. self.old.entries ≡ boxed.value.map.entries) }
        ensures empty { OnErr result (self.old.entries ≡ []) }
        ensures err { OnErr result (self.new.entries ≡ self.old.entries) }
    {
        match mem::replace(self, RangeMap::none(alloc)).into_box() {
            Some(boxed) => Ok(boxed),
            None => boxed_map(RangeMapBlaze::new(alloc), alloc),
        }
    }

    // Replaces the map.
    fn set_map(&mut self, boxed: Box<Map>)
        ensures { self.new.entries ≡ boxed.value.map.entries }
    {
        *self = RangeMap::of_parts(Parts::of(boxed));
    }
}

impl RangeMap {
    ghost use mathlib.Core.Option.{none};
    ghost use Rattle.std.specs.Borrow.{LendsIf, follows_so, sem};
    ghost use Rattle.std.specs.Prelude.{⊤};
    ghost use Rattle.range_map_c.specs.Lends.{with_map};
    ghost use Rattle.range_map_c.specs.contracts.handle.Map.{the_row as map_row};
    ghost use Rattle.range_map_c.specs.contracts.handle.RangeMap.{the_row};

    // Borrows the map. Returns `None` where no key has had a value yet.
    fn as_mut(&mut self) -> Option<&mut Map>
        ensures* writes_back { sem 𝓛 (LendsIf the_row map_row self.entry result
            (with_map self.old) self.old) }
        ensures map { MatchOption result (self.old.entries ≡ [])
            (λ map. self.old.entries ≡ map.now.map.entries) }
    {
        let at = self.at;
        if at.is_null() {
            return None;
        }
        Some(unsafe { &mut *(at as *mut Map) })
    }

    /// Borrows the map to be read. Returns `None` where no key has had a value yet. The entries and the pointer stay.
    pub fn as_ref(&mut self) -> Option<&Map>
        ensures* unchanged { sem 𝓛 (follows_so the_row the_row self.entry.ghost_name none (λ _ _. ⊤)
            (λ m. (m.entries ≡ self.old.entries) × (m.at ≡ self.old.at))) }
        ensures map { MatchOption result (self.old.entries ≡ [])
            (λ map. self.old.entries ≡ map.now.map.entries) }
    {
        match self.as_mut() {
            Some(map) => Some(map),
            None => None,
        }
    }
}

impl RangeMap {
    ghost use Rattle.std.specs.Prelude.{nat_eq};
    ghost use Rattle.blaze_entries.specs.Canonical.{IsRangeMap};
    ghost use Rattle.range_map_c.specs.Handle.{least_key, greatest_key};

    /// Does nothing; its contract says that the entries are those of a range map.
    pub fn in_hand(&mut self, alloc: Global)
        ensures range_map { IsRangeMap nat_eq least_key greatest_key self.old.entries }
        ensures kept { self.new.entries ≡ self.old.entries }
        ensures same { self.new.at ≡ self.old.at }
    {
        let empty = RangeMapBlaze::new(alloc);
        map_or(self.as_ref(), &empty).in_hand();
    }
}

/// Returns the map that was borrowed, and the other one where there was none.
pub fn map_or<'a>(
    borrowed: Option<&'a Map>,
    other: &'a RangeMapBlaze<i64, u64>,
) -> &'a RangeMapBlaze<i64, u64>
    ensures { MatchOption borrowed.entry (result.now ≡ other.now)
        (λ map. result.now ≡ map.now.map) }
{
    match borrowed {
        Some(map) => &map.map,
        None => other,
    }
}

// Moves a map into a box.
fn boxed_map(map: RangeMapBlaze<i64, u64>, alloc: Global) -> Result<Box<Map>, AllocError>
    ensures { IfOk result (λ boxed. boxed.value.map.entries ≡ map.entries) }
{
    match Box::new(alloc, Map { map }) {
        Ok(boxed) => Ok(boxed),
        Err(_) => Err(AllocError),
    }
}

// Stores `made` in `out`, and frees what `out` had. If an allocation fails, `out` is unchanged. An empty map does not allocate.
fn hand_out(
    made: Result<RangeMapBlaze<i64, u64>, AllocError>,
    out: &mut RangeMap,
    alloc: Global,
) -> i32
    ensures status { IsStatus result }
    ensures ok { OnDone result (IsOkAnd made (λ map. out.new.entries ≡ map.entries)) }
    ensures empty { IsOkAnd made (λ map. map.entries ≡ []) → result ≡ pos 0 }
    ensures err { OnRefused result (out.new.entries ≡ out.old.entries) }
{
    let map = match made {
        Ok(map) => map,
        Err(_) => return NO_MEMORY,
    };
    if map.is_empty() {
        *out = RangeMap::none(alloc);
        return DONE;
    }
    match boxed_map(map, alloc) {
        Ok(boxed) => {
            out.set_map(boxed);
            DONE
        }
        Err(_) => NO_MEMORY,
    }
}
