//! The table of ranges and its basic methods.
ghost use Rattle.std.specs.Prelude.{◌≡◌, ◌-◌, pos, [], length, slice_get};
ghost use Rattle.std.specs.Prelude.{IfOk, option_map};
ghost use Rattle.blaze_entries.specs.Starts.{from};
ghost use Rattle.blaze_entries.specs.Counted.{uncounted};
ghost use Rattle.blaze_entries.specs.Entries.{at, shown_entry, shown_list};
ghost use Rattle.blaze_entries.specs.Entries.{SameEntries};
ghost use Rattle.blaze_entries.specs.Canonical.{IsRangeMap};
ghost use Rattle.blaze_entries.specs.Count.{keys_in, mapped_keys};
ghost use Rattle.blaze_entries.specs.Painted.{ClonesAreAlike};

mod cut;
mod fill;
mod gaps;
mod paint;
mod part;
mod retain;
mod search;
mod split;

use crate::count::count_list;
use blaze_entries::{Entries, IntoIter, Iter, Range};
use blaze_int::{Integer, SafeLength};
use std::alloc::{AllocError, Global};
use std::marker::Model;

/// Ranges with their values, ascending, disjoint and as few as possible, and the number of their keys. Contracts see
/// the list of entries with counters of the work on it: lookups, inserted entries and removed entries.
#[derive(Drop)]
pub struct RangeTable<T: Integer, V: Eq> {
    entries: Entries<T, V>,
    len: T::SafeLen,
}

impl<T: Integer, V: Eq> Model for RangeTable<T, V> {
    ghost use Rattle.blaze_entries.specs.Counted.{CountedEntries, counted_code};
    ghost use Rattle.blaze_entries.specs.Table.{IsTable};

    ghost Value = { CountedEntries V };

    ghost coded = { counted_code V.code };

    ghost view = { λ a. a.entries.counted };

    ghost invariant = { λ a. IsTable V.eq T.low T.high (T.SafeLen.number a.len) a.entries.counted.entries };
}

impl<T: Integer, V: Eq> RangeTable<T, V> {
    /// Returns the empty table. It allocates nothing.
    pub fn new(alloc: Global) -> Self
        ensures { result ≡ uncounted [] }
    {
        RangeTable {
            entries: Entries::new(alloc),
            len: T::SafeLen::zero(),
        }
    }

    /// Returns the table with all counters at 0. A function that builds its result from an owned table ends with this
    /// call. It allocates nothing.
    pub fn uncounted(self) -> Self
        ensures { result ≡ uncounted self.entries }
    {
        RangeTable {
            entries: self.entries.uncounted(),
            len: self.len,
        }
    }

    /// Returns the number of keys that have a value. O(1).
    pub fn len(&self) -> T::SafeLen
        ensures lengths { pos (T.SafeLen.number result) ≡ keys_in self.now.entries }
        ensures mapped { T.SafeLen.number result ≡ mapped_keys T.low T.high (at self.now.entries) }
    {
        self.len
    }

    /// Returns the number of entries. O(1).
    pub fn entries(&self) -> usize
        ensures { result ≡ length self.now.entries }
    {
        self.entries.len()
    }

    /// Returns the allocator of the table's memory. O(1).
    pub fn allocator(&self) -> Global {
        self.entries.allocator()
    }

    /// Does nothing. Its contract states that the list is canonical and its ends are keys.
    pub fn in_hand(&self)
        ensures { IsRangeMap V.eq T.low T.high self.now.entries }
    {
        let _ = &self.entries;
    }

    /// Returns the first entry as (first key, last key, value). O(log n) with n entries, without comparing keys in the
    /// tree.
    pub fn first(&self) -> Option<(T, T, &V)>
        ensures { option_map (shown_entry T.rank (λ v. v.now)) result
            ≡ slice_get self.now.entries 0 }
    {
        self.entries.first()
    }

    /// Returns the last entry as (first key, last key, value). O(log n) with n entries, without comparing keys in the
    /// tree.
    pub fn last(&self) -> Option<(T, T, &V)>
        ensures { option_map (shown_entry T.rank (λ v. v.now)) result
            ≡ slice_get self.now.entries (length self.now.entries - 1) }
    {
        self.entries.last()
    }

    /// Iterates over the entries, ascending, each as (first key, last key, value). It allocates nothing. All n entries
    /// take O(n) time.
    pub fn iter(&self) -> Iter<'_, T, V>
        ensures { result ≡ self.now.entries }
    {
        self.entries.iter()
    }

    /// Iterates over the entries that start at `key` or above, ascending, each as (first key, last key, value). It
    /// allocates nothing. The call takes O(log n) time with n entries.
    pub fn iter_starting_from(&self, key: T) -> Range<'_, T, V>
        ensures { result ≡ from (T.rank key) self.now.entries }
    {
        self.entries.iter_starting_from(key)
    }
}

impl<T: Integer, V: Eq + Drop> RangeTable<T, V> {
    /// Builds a table from a canonical list of (first key, last key, value). If an allocation fails, the list is
    /// dropped. O(n) with n entries.
    pub fn from_canonical(alloc: Global, entries: Vec<(T, T, V)>) -> Result<Self, AllocError>
        requires range_map { IsRangeMap V.eq T.low T.high (shown_list T.rank entries.items) }
        ensures { IfOk result (λ table. table ≡ uncounted (shown_list T.rank entries.items)) }
    {
        let len = count_list(entries.as_slice());
        let entries = Entries::from_sorted(alloc, entries)?;
        Ok(RangeTable { entries, len })
    }

    /// Removes all entries. The counters do not change. O(n) with n entries.
    pub fn clear(&mut self)
        ensures { self.new ≡ record self.old { entries = [] } }
    {
        self.entries.clear();
        self.len = T::SafeLen::zero();
    }
}

impl<T: Integer, V: Eq + Clone> RangeTable<T, V> {
    /// Clones the table: each range, with a clone of its value. If an allocation or a clone fails, this table is
    /// unchanged. O(n) with n entries.
    pub fn clone(&self) -> Result<Self, AllocError>
        requires { ClonesAreAlike V.is_clone V.eq }
        ensures same { IfOk result (λ copy. SameEntries V.eq self.now.entries copy.entries) }
        ensures uncounted { IfOk result (λ copy. copy ≡ uncounted copy.entries) }
    {
        let entries = self.entries.clone()?;
        Ok(RangeTable {
            entries,
            len: self.len,
        })
    }
}

impl<T: Integer, V: Eq + Drop> IntoIterator for RangeTable<T, V> {
    type Item = (T, T, V);

    type IntoIter = IntoIter<T, V>;

    ghost into_iter_gives = { λ table iter. iter ≡ table.entries };

    /// Returns the owned entries, ascending, each as (first key, last key, value). It allocates nothing. All n entries
    /// take O(n) time.
    fn into_iter(self) -> IntoIter<T, V> {
        self.entries.into_iter()
    }
}
