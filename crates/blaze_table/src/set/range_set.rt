//! A set of keys, stored as ranges.
ghost use Rattle.std.specs.Prelude.{◌≡◌, ◌↔◌, pos, List, [], length, IsTrue, IsSome, IfOk, map};
ghost use Rattle.std.specs.Iterator.{Drains, IsFinite};
ghost use Rattle.std.specs.declared.ops.RangeInclusive.{RangeInclusive};
ghost use Rattle.blaze_entries.specs.Entries.{at, shown_entry};
ghost use Rattle.blaze_entries.specs.Count.{keys_in, mapped_keys};
ghost use Rattle.blaze_entries.specs.RangeSets.{shown_bare_ranges, IsSetOf, IsRangeSet};

use crate::set::into_ranges_iter::IntoRangesIter;
use crate::set::ranges_iter::RangesIter;
use crate::sweep::canonical_of;
use crate::table::RangeTable;
use blaze_int::Integer;
use std::alloc::{AllocError, Global};
use std::marker::Model;
use std::ops::RangeInclusive;

/// A set of keys, stored as ascending ranges. The ranges are as few as possible, so no two touch.
#[derive(Drop)]
pub struct RangeSetBlaze<T: Integer> {
    pub(crate) table: RangeTable<T, ()>,
}

impl<T: Integer> Model for RangeSetBlaze<T> {
    ghost use Rattle.std.specs.Prelude.{List};
    ghost use Rattle.std.specs.Coded.{coded_list};
    ghost use Rattle.blaze_entries.specs.Entries.{Entry};
    ghost use Rattle.blaze_entries.specs.RangeSets.{bare_code};

    ghost Value = { List (Entry (Unit {0})) };

    ghost coded = { coded_list bare_code };

    ghost view = { λ s. s.table.entries };
}

impl<T: Integer> RangeSetBlaze<T> {
    /// Returns the empty set. It allocates nothing.
    pub fn new(alloc: Global) -> Self
        ensures { result ≡ [] }
    {
        RangeSetBlaze {
            table: RangeTable::new(alloc),
        }
    }

    /// Builds a set from a canonical list of ranges: ascending, not empty, and no two touch. If an allocation fails,
    /// the list is dropped. O(n) with n ranges.
    pub fn from_canonical(alloc: Global, ranges: Vec<RangeInclusive<T>>) -> Result<Self, AllocError>
        requires range_set { IsRangeSet T.low T.high (shown_bare_ranges T.rank ranges.items) }
        ensures { IfOk result (λ set. set ≡ shown_bare_ranges T.rank ranges.items) }
    {
        let entries = entries_of_ranges(alloc, ranges)?;
        let table = RangeTable::from_canonical(alloc, entries)?;
        Ok(RangeSetBlaze { table })
    }

    /// Builds the set of the keys that are in at least one range. A range whose end is below its start has no key. If
    /// an allocation fails, the remaining ranges are dropped. O(n log n) with n ranges, or O(n) if they are ascending,
    /// disjoint and not empty.
    pub fn from_ranges<I: IntoIterator<Item = RangeInclusive<T>>>(
        alloc: Global,
        iter: I,
    ) -> Result<Self, AllocError>
        requires { (it : I.IntoIter) → I.into_iter_gives iter it → I.IntoIter.can_next it
            × IsFinite (I.IntoIter.remaining it) }
        ensures { IfOk result (λ set. (it : I.IntoIter) × (ranges : List (RangeInclusive T))
            × I.into_iter_gives iter it × Drains I.IntoIter.next_gives it ranges
            × IsSetOf T.low T.high (shown_bare_ranges T.rank ranges) set) }
    {
        let mut pairs = Vec::new(alloc);
        for range in iter {
            let (start, end) = range.into_inner();
            pairs.push((start, end, ()))?;
        }
        let entries = canonical_of(alloc, pairs)?;
        let table = RangeTable::from_canonical(alloc, entries)?;
        Ok(RangeSetBlaze { table })
    }

    /// Does nothing. Its contract states that the list of ranges is canonical and its ends are keys.
    pub fn in_hand(&self)
        ensures { IsRangeSet T.low T.high self.now }
    {
        self.table.in_hand();
    }

    /// Returns the number of keys. O(1).
    pub fn len(&self) -> T::SafeLen
        ensures lengths { pos (T.SafeLen.number result) ≡ keys_in self.now }
        ensures mapped { T.SafeLen.number result ≡ mapped_keys T.low T.high (at self.now) }
    {
        self.table.len()
    }

    /// Returns the number of ranges. O(1).
    pub fn ranges_len(&self) -> usize
        ensures { result ≡ length self.now }
    {
        self.table.entries()
    }

    /// Returns whether `key` is in the set. O(log n) with n ranges.
    pub fn contains(&self, key: T) -> bool
        ensures { IsTrue result ↔ IsSome (at self.now (T.rank key)) }
    {
        self.table.find(key).is_some()
    }

    /// Returns the set as a table with `()` values, which has the lookups of keys and gaps. It allocates nothing. O(1).
    pub fn as_table(&self) -> &RangeTable<T, ()>
        ensures { result.now.entries ≡ self.now }
    {
        &self.table
    }

    /// Iterates over the ranges, ascending. It allocates nothing. All n ranges take O(n) time.
    pub fn ranges(&self) -> RangesIter<'_, T>
        ensures { result ≡ self.now }
    {
        RangesIter::new(&self.table)
    }

    /// Returns an iterator over the owned ranges, ascending. It allocates nothing. All n ranges take O(n) time.
    pub fn into_ranges(self) -> IntoRangesIter<T>
        ensures { result ≡ self }
    {
        IntoRangesIter::new(self.table)
    }
}

// Converts ranges to entries, each as (first key, last key, `()`).
fn entries_of_ranges<T: Integer>(
    alloc: Global,
    ranges: Vec<RangeInclusive<T>>,
) -> Result<Vec<(T, T, ())>, AllocError>
    ensures { IfOk result (λ entries. map (shown_entry T.rank (λ v. v)) entries.items
        ≡ shown_bare_ranges T.rank ranges.items) }
{
    let mut entries = Vec::with_capacity(alloc, ranges.len())?;
    for range in ranges {
        let (start, end) = range.into_inner();
        entries.push((start, end, ()))?;
    }
    Ok(entries)
}
