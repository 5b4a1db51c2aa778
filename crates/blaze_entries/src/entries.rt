//! Entries with uncounted reads: lookups, iterators and splits. Counted work goes through the field `counted`.
ghost use Rattle.std.specs.Prelude.{◌≡◌, ◌-◌, [], pos, ◌+ℤ◌, ◌≤ℤ◌, length, slice_get, IfOk};
ghost use Rattle.std.specs.Option.{option_map};
ghost use Rattle.blaze_entries.specs.Cloned.{AreCloned};
ghost use Rattle.blaze_entries.specs.Counted.{uncounted};
ghost use Rattle.blaze_entries.specs.Entries.{shown_entry, shown_list};
ghost use Rattle.blaze_entries.specs.Starts.{StartsAscend, from, last_below, first_from, up_to};

mod edits;

use crate::counted::Counted;
use crate::into_iter::IntoIter;
use crate::iter::Iter;
use crate::range::Range;
use crate::tree::Tree;
use blaze_int::Integer;
use std::alloc::{AllocError, Global};

/// Entries ordered by their starts. Work through `counted` is counted, and work through the methods here is not.
#[derive(Drop)]
pub struct Entries<T: Integer, V> {
    pub counted: Counted<T, V>,
    alloc: Global,
}

impl<T: Integer, V: Drop> IntoIterator for Entries<T, V> {
    type Item = (T, T, V);

    type IntoIter = IntoIter<T, V>;

    ghost into_iter_gives = { λ entries iter. iter ≡ entries.counted.entries };

    /// Returns the owned entries, ascending, each as (first key, last key, value). It allocates nothing. All n entries
    /// take O(n) time.
    fn into_iter(self) -> IntoIter<T, V> {
        let Entries { counted, .. } = self;
        counted.into_entries()
    }
}

impl<T: Integer, V> Entries<T, V> {
    /// Returns an empty list of entries. It allocates nothing.
    pub fn new(alloc: Global) -> Self
        ensures { result.counted ≡ uncounted [] }
    {
        Entries {
            counted: Counted::new(Tree::new(alloc)),
            alloc,
        }
    }

    /// Returns the allocator of the entries' memory. O(1).
    pub fn allocator(&self) -> Global {
        self.alloc
    }

    /// Returns the entries with all counters at 0. It allocates nothing.
    pub fn uncounted(self) -> Self
        ensures { result.counted ≡ uncounted self.counted.entries }
    {
        let Entries { counted, alloc } = self;
        Entries {
            counted: counted.uncounted(),
            alloc,
        }
    }

    /// Returns the number of entries. O(1).
    pub fn len(&self) -> usize
        ensures { result ≡ length self.now.counted.entries }
    {
        self.counted.tree.len()
    }

    /// Does nothing. Its contract states that the starts are keys and ascend.
    pub fn in_hand(&self)
        ensures { StartsAscend T.low T.high self.now.counted.entries }
    {
        self.counted.in_hand();
    }

    /// Returns the first entry as (first key, last key, value). O(log n) with n entries, without comparing keys in the
    /// tree.
    pub fn first(&self) -> Option<(T, T, &V)>
        ensures { option_map (shown_entry T.rank (λ v. v.now)) result
            ≡ slice_get self.now.counted.entries 0 }
    {
        self.counted.tree.first()
    }

    /// Returns the last entry as (first key, last key, value). O(log n) with n entries, without comparing keys in the
    /// tree.
    pub fn last(&self) -> Option<(T, T, &V)>
        ensures { option_map (shown_entry T.rank (λ v. v.now)) result
            ≡ slice_get self.now.counted.entries (length self.now.counted.entries - 1) }
    {
        self.counted.tree.last()
    }

    /// Returns the entry with the greatest start below `key` as (first key, last key, value). O(log n) with n entries.
    pub fn below(&self, key: T) -> Option<(T, T, &V)>
        ensures { option_map (shown_entry T.rank (λ v. v.now)) result
            ≡ last_below (T.rank key) self.now.counted.entries }
    {
        self.counted.tree.below(key)
    }

    /// Returns the entry with the greatest start up to `key` as (first key, last key, value). O(log n) with n entries.
    pub fn at_or_below(&self, key: T) -> Option<(T, T, &V)>
        ensures { option_map (shown_entry T.rank (λ v. v.now)) result
            ≡ last_below (T.rank key +ℤ pos 1) self.now.counted.entries }
    {
        self.counted.tree.at_or_below(key)
    }

    /// Returns the entry with the least start from `key` on as (first key, last key, value). O(log n) with n entries.
    pub fn at_or_above(&self, key: T) -> Option<(T, T, &V)>
        ensures { option_map (shown_entry T.rank (λ v. v.now)) result
            ≡ first_from (T.rank key) self.now.counted.entries }
    {
        self.counted.tree.at_or_above(key)
    }

    /// Iterates over the entries, ascending, each as (first key, last key, value). It allocates nothing. All n entries
    /// take O(n) time.
    pub fn iter(&self) -> Iter<'_, T, V>
        ensures { result ≡ self.now.counted.entries }
    {
        self.counted.tree.iter()
    }

    /// Iterates over the entries that start from `key` on, ascending, each as (first key, last key, value). It
    /// allocates nothing. The call takes O(log n) time with n entries.
    pub fn iter_starting_from(&self, key: T) -> Range<'_, T, V>
        ensures { result ≡ from (T.rank key) self.now.counted.entries }
    {
        self.counted.tree.iter_from(key)
    }

    /// Iterates over the entries that start from `first` up to `last`, ascending, each as (first key, last key, value).
    /// The iterator is double-ended and allocates nothing. The call takes O(log n) time with n entries.
    pub fn iter_between(&self, first: T, last: T) -> Range<'_, T, V>
        requires { T.rank first ≤ℤ T.rank last }
        ensures { result ≡ up_to (T.rank last) (from (T.rank first) self.now.counted.entries) }
    {
        self.counted.tree.iter_between(first, last)
    }
}

impl<T: Integer, V: Drop> Entries<T, V> {
    /// Builds entries from a list of (first key, last key, value). It requires that the starts ascend. If an allocation
    /// fails, the list is dropped. O(n) with n entries.
    pub fn from_sorted(alloc: Global, entries: Vec<(T, T, V)>) -> Result<Self, AllocError>
        requires ascend { StartsAscend T.low T.high (shown_list T.rank entries.items) }
        ensures { IfOk result (λ built. built.counted
            ≡ uncounted (shown_list T.rank entries.items)) }
    {
        let tree = Tree::from_sorted(alloc, entries)?;
        Ok(Entries {
            counted: Counted::new(tree),
            alloc,
        })
    }
}

impl<T: Integer, V: Clone> Entries<T, V> {
    /// Clones the entries: each range, with a clone of its value. If an allocation or a clone fails, these entries are
    /// unchanged. O(n) with n entries.
    pub fn clone(&self) -> Result<Self, AllocError>
        ensures clones { IfOk result
            (λ copy. AreCloned V.is_clone self.now.counted.entries copy.counted.entries) }
        ensures uncounted { IfOk result (λ copy. copy.counted ≡ uncounted copy.counted.entries) }
    {
        let tree = self.counted.tree.clone()?;
        Ok(Entries {
            counted: Counted::new(tree),
            alloc: self.alloc,
        })
    }
}
