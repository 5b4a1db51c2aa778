//! The map.
ghost use Rattle.std.specs.Prelude.{◌≡◌, ◌↔◌, ℤ, ◌≤ℤ◌, pos, [], length, IsTrue, IsSome, IfOk};
ghost use Rattle.blaze_entries.specs.Canonical.{IsRangeMap};
ghost use Rattle.blaze_entries.specs.Count.{keys_in, mapped_keys};
ghost use Rattle.blaze_entries.specs.Counted.{uncounted};
ghost use Rattle.blaze_entries.specs.Entries.{at, SameEntries};
ghost use Rattle.blaze_entries.specs.Laws.{IsShortest};
ghost use Rattle.blaze_entries.specs.Painted.{ClonesAreAlike};
ghost use Rattle.range_map_blaze.specs.Made.{IsMade};

use blaze_int::compare::length;
use blaze_int::{Integer, differ};
use blaze_iters::{RangeValuesIter, SeekingRangeValuesIter};
use blaze_table::RangeTable;
use blaze_table::laws::canonical_is_shortest;
use std::alloc::{AllocError, Global};
use std::marker::Model;

/// A map from integers to values, stored as entries: ranges of keys with one value each. The entries ascend, share no key and are
/// as few as possible: touching ranges with equal values are one entry. Contracts see the list of entries, and count the entries
/// that a call compared, inserted or removed.
///
/// The examples of the methods start from the values below; `alloc` is `rt.alloc()`. The comment behind a line is its result in
/// debug form: the value of the expression, or the value that `let` names.
///
/// ```
/// let mut map = RangeMapBlaze::from_ranges(alloc, [(10..=14, 'a'), (15..=15, 'b'), (30..=39, 'c')])?;
/// let mut other = RangeMapBlaze::from_ranges(alloc, [(12..=15, 'b')])?;
/// map; // (10..=14, 'a'), (15..=15, 'b'), (30..=39, 'c')
/// ```
#[derive(Drop)]
pub struct RangeMapBlaze<T: Integer, V: Eq> {
    pub(crate) table: RangeTable<T, V>,
}

impl<T: Integer, V: Eq> Model for RangeMapBlaze<T, V> {
    ghost use Rattle.blaze_entries.specs.Counted.{CountedEntries, counted_code};

    ghost Value = { CountedEntries V };

    ghost coded = { counted_code V.code };

    ghost view = { λ m. m.table };
}

impl<T: Integer, V: Eq> RangeMapBlaze<T, V> {
    /// Returns the empty map. Does not allocate. O(1).
    ///
    /// ```
    /// RangeMapBlaze::<i32, char>::new(alloc).is_empty(); // true
    /// ```
    pub fn new(alloc: Global) -> Self
        ensures { result ≡ uncounted [] }
    {
        RangeMapBlaze {
            table: RangeTable::new(alloc),
        }
    }

    /// Returns the empty map. Does not allocate. O(1).
    ///
    /// ```
    /// RangeMapBlaze::<i32, char>::default(alloc).ranges_len(); // 0
    /// ```
    pub fn default(alloc: Global) -> Self
        ensures { result ≡ uncounted [] }
    {
        Self::new(alloc)
    }

    /// Returns the number of keys that have a value. Does not allocate. O(1).
    ///
    /// ```
    /// map.len(); // 16
    /// ```
    pub fn len(&self) -> T::SafeLen
        ensures lengths { pos (T.SafeLen.number result) ≡ keys_in self.now.entries }
        ensures mapped { T.SafeLen.number result ≡ mapped_keys T.low T.high (at self.now.entries) }
    {
        self.table.len()
    }

    /// Returns whether no key has a value. Does not allocate. O(1).
    ///
    /// ```
    /// map.is_empty(); // false
    /// ```
    pub fn is_empty(&self) -> bool
        ensures { IsTrue result ↔ (self.now.entries ≡ []) }
    {
        self.ranges_len() == 0
    }

    /// Returns whether every key of the key type has a value. Does not allocate. O(1).
    ///
    /// ```
    /// map.is_universal(); // false
    /// RangeMapBlaze::<i32, char>::universe_with(alloc, &'-')?.is_universal(); // true
    /// ```
    pub fn is_universal(&self) -> bool
        ensures { IsTrue result ↔ ((k : ℤ) → T.low ≤ℤ k → k ≤ℤ T.high
            → IsSome (at self.now.entries k)) }
    {
        let (first, last) = (T::min_value(), T::max_value());
        first.in_hand();
        !differ(self.len(), length(first, last))
    }

    /// Returns the number of entries. No shorter list of ranges has the content of the map. Does not allocate. O(1).
    ///
    /// ```
    /// map.ranges_len(); // 3
    /// ```
    pub fn ranges_len(&self) -> usize
        ensures count { result ≡ length self.now.entries }
        ensures shortest { IsShortest V.eq self.now.entries }
    {
        canonical_is_shortest::<V>();
        self.in_hand();
        self.table.entries()
    }

    /// Returns the number of entries, as `ranges_len` does. Does not allocate. O(1).
    ///
    /// ```
    /// map.range_values_len(); // 3
    /// ```
    pub fn range_values_len(&self) -> usize
        ensures count { result ≡ length self.now.entries }
        ensures shortest { IsShortest V.eq self.now.entries }
    {
        self.ranges_len()
    }

    /// Returns an iterator over the entries, ascending, from both ends: each range with a reference to its value. Neither the
    /// call nor the iterator allocates. The call is O(1), and each entry is O(1).
    ///
    /// ```
    /// let mut entries = map.range_values();
    /// entries.next(); // Some((10..=14, 'a'))
    /// entries.next_back(); // Some((30..=39, 'c'))
    /// ```
    pub fn range_values(&self) -> RangeValuesIter<'_, T, V>
        ensures { result ≡ self.now.entries }
    {
        RangeValuesIter::new(&self.table)
    }

    /// Returns the entries, ascending, as a stream with a quick `seek`. Does not allocate. O(1).
    #[doc(hidden)]
    pub fn seeking_range_values(&self) -> SeekingRangeValuesIter<'_, T, V>
        ensures { result ≡ self.now.entries }
    {
        SeekingRangeValuesIter::new(&self.table)
    }

    // Resets the counters. Each call that makes its result of an owned map ends with this.
    pub(crate) fn uncounted(self) -> Self
        ensures { result ≡ uncounted self.entries }
    {
        RangeMapBlaze {
            table: self.table.uncounted(),
        }
    }

    // Returns the allocator of this map, for new maps.
    pub(crate) fn allocator(&self) -> Global {
        self.table.allocator()
    }

    /// Does nothing at run time. Its contract says that the list of entries is canonical and that its ends are keys.
    pub fn in_hand(&self)
        ensures { IsRangeMap V.eq T.low T.high self.now.entries }
    {
        self.table.in_hand();
    }
}

impl<T: Integer, V: Eq + Drop> RangeMapBlaze<T, V> {
    /// Removes all keys. Does not allocate. O(n) for n entries.
    ///
    /// ```
    /// map.clear();
    /// map.is_empty(); // true
    /// ```
    pub fn clear(&mut self)
        ensures { self.new ≡ record self.old { entries = [] } }
    {
        self.table.clear();
    }
}

impl<T: Integer, V: Eq + Clone> RangeMapBlaze<T, V> {
    /// Returns a map of the same ranges, each with a clone of its value. Allocates. If an allocation fails, this map is
    /// unchanged. O(n) for n entries.
    ///
    /// ```
    /// map.clone()?; // (10..=14, 'a'), (15..=15, 'b'), (30..=39, 'c')
    /// ```
    pub fn clone(&self) -> Result<Self, AllocError>
        requires { ClonesAreAlike V.is_clone V.eq }
        ensures { IfOk result (IsMade (SameEntries V.eq self.now.entries)) }
    {
        let table = self.table.clone()?;
        Ok(RangeMapBlaze { table })
    }
}
