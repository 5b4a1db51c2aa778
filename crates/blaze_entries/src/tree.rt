//! Entries in a tree ordered by their starts: lookups and iterators. The submodules have the edits.
ghost use Rattle.std.specs.Prelude.{◌≡◌, ◌-◌, ◌<◌, ◌^◌, [], pos, ◌+ℤ◌, ◌≤ℤ◌, length, slice_get, IfOk};
ghost use Rattle.blaze_entries.specs.Cloned.{AreCloned};
ghost use Rattle.blaze_entries.specs.Entries.{shown_borrowed};
ghost use Rattle.blaze_entries.specs.Starts.{StartsAscend, below, from, up_to, last_below, first_from, start_at};

mod build;
mod edits;
mod moves;
mod retain;

use crate::into_iter::IntoIter;
use crate::iter::Iter;
use crate::node::{Nodes, shown};
use crate::range::Range;
use crate::start::Start;
use blaze_int::Integer;
use std::alloc::{AllocError, Global};
use std::collections::BTreeMap;
use std::marker::Model;

/// Entries ordered by their starts. Contracts see the ascending list of the entries.
#[derive(Drop)]
pub struct Tree<T: Integer, V> {
    nodes: Nodes<T, V>,
}

impl<T: Integer, V> Model for Tree<T, V> {
    ghost use Rattle.std.specs.Prelude.{List};
    ghost use Rattle.std.specs.Coded.{coded_list};
    ghost use Rattle.blaze_entries.specs.Entries.{Entry, entry_code};

    ghost Value = { List (Entry V) };

    ghost coded = { coded_list (entry_code V.code) };

    ghost use Rattle.blaze_entries.specs.Nodes.{shown_nodes, entries_of, AreHeld};

    ghost view = { λ t. entries_of T.rank t.nodes.entries };

    ghost invariant = { λ t. AreHeld T.low T.high (shown_nodes T.rank t.nodes.entries) };
}

impl<T: Integer, V> Tree<T, V> {
    /// Returns an empty tree. It allocates nothing.
    pub fn new(alloc: Global) -> Self
        ensures { result ≡ [] }
    {
        Tree {
            nodes: BTreeMap::new(alloc),
        }
    }

    /// Does nothing. Its contract states that the starts are keys and ascend.
    pub fn in_hand(&self)
        ensures { StartsAscend T.low T.high self.now }
    {
        let _ = &self.nodes;
    }

    /// Returns the number of entries. O(1).
    pub fn len(&self) -> usize
        ensures len { result ≡ length self.now }
        ensures small { length self.now < 2 ^ 64 }
    {
        self.nodes.len()
    }

    /// Returns the first entry as (first key, last key, value). O(log n) with n entries, without comparing keys in the
    /// tree.
    pub fn first(&self) -> Option<(T, T, &V)>
        ensures { shown_borrowed T.rank result ≡ slice_get self.now 0 }
    {
        shown(self.nodes.first_key_value())
    }

    /// Returns the last entry as (first key, last key, value). O(log n) with n entries, without comparing keys in the
    /// tree.
    pub fn last(&self) -> Option<(T, T, &V)>
        ensures { shown_borrowed T.rank result ≡ slice_get self.now (length self.now - 1) }
    {
        shown(self.nodes.last_key_value())
    }

    /// Returns the entry that starts at `start` as (first key, last key, value). O(log n) with n entries.
    pub fn at(&self, start: T) -> Option<(T, T, &V)>
        ensures { shown_borrowed T.rank result ≡ start_at (T.rank start) self.now }
    {
        shown(self.nodes.get_key_value(&Start(start)))
    }

    /// Returns the entry with the greatest start below `key` as (first key, last key, value). O(log n) with n entries.
    pub fn below(&self, key: T) -> Option<(T, T, &V)>
        ensures { shown_borrowed T.rank result ≡ last_below (T.rank key) self.now }
    {
        self.iter_below(key).next_back()
    }

    /// Returns the entry with the greatest start up to `key` as (first key, last key, value). O(log n) with n entries.
    pub fn at_or_below(&self, key: T) -> Option<(T, T, &V)>
        ensures { shown_borrowed T.rank result ≡ last_below (T.rank key +ℤ pos 1) self.now }
    {
        self.iter_up_to(key).next_back()
    }

    /// Returns the entry with the least start from `key` on as (first key, last key, value). O(log n) with n entries.
    pub fn at_or_above(&self, key: T) -> Option<(T, T, &V)>
        ensures { shown_borrowed T.rank result ≡ first_from (T.rank key) self.now }
    {
        self.iter_from(key).next()
    }

    /// Iterates over the entries, ascending, each as (first key, last key, value).
    pub fn iter(&self) -> Iter<'_, T, V>
        ensures { result ≡ self.now }
    {
        Iter::new(self.nodes.iter())
    }

    /// Iterates over the entries that start below `key`, ascending, each as (first key, last key, value). The iterator
    /// is double-ended. The call takes O(log n) time with n entries.
    pub fn iter_below(&self, key: T) -> Range<'_, T, V>
        ensures { result ≡ below (T.rank key) self.now }
    {
        Range::new(self.nodes.range(..Start(key)))
    }

    /// Iterates over the entries that start up to `key`, ascending, each as (first key, last key, value). The iterator
    /// is double-ended. The call takes O(log n) time with n entries. The bound is the next key, excluded, since the
    /// tree compares an excluded bound faster.
    pub fn iter_up_to(&self, key: T) -> Range<'_, T, V>
        ensures { result ≡ below (T.rank key +ℤ pos 1) self.now }
    {
        match key.checked_add_one() {
            Some(next) => Range::new(self.nodes.range(..Start(next))),
            None => Range::new(self.nodes.range(..)),
        }
    }

    /// Iterates over the entries that start from `key` on, ascending, each as (first key, last key, value). The
    /// iterator is double-ended. The call takes O(log n) time with n entries.
    pub fn iter_from(&self, key: T) -> Range<'_, T, V>
        ensures { result ≡ from (T.rank key) self.now }
    {
        Range::new(self.nodes.range(Start(key)..))
    }

    /// Iterates over the entries that start from `first` up to `last`, ascending, each as (first key, last key, value).
    /// The iterator is double-ended. The call takes O(log n) time with n entries.
    pub fn iter_between(&self, first: T, last: T) -> Range<'_, T, V>
        requires { T.rank first ≤ℤ T.rank last }
        ensures { result ≡ up_to (T.rank last) (from (T.rank first) self.now) }
    {
        Range::new(self.nodes.range(Start(first)..=Start(last)))
    }
}

impl<T: Integer, V: Drop> IntoIterator for Tree<T, V> {
    type Item = (T, T, V);

    type IntoIter = IntoIter<T, V>;

    ghost into_iter_gives = { λ tree iter. iter ≡ tree };

    /// Returns the owned entries, ascending, each as (first key, last key, value). It allocates nothing. All n entries
    /// take O(n) time.
    fn into_iter(self) -> IntoIter<T, V> {
        let Tree { nodes } = self;
        IntoIter::new(nodes.into_iter())
    }
}

impl<T: Integer, V: Clone> Tree<T, V> {
    /// Clones the tree: each range, with a clone of its value. If an allocation or a clone fails, this tree is
    /// unchanged. O(n) with n entries.
    pub fn clone(&self) -> Result<Self, AllocError>
        ensures { IfOk result (λ copy. AreCloned V.is_clone self.now copy) }
    {
        let nodes = self.nodes.clone()?;
        Ok(Tree { nodes })
    }
}
