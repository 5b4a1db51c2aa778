//! Uncounted edits of entries.
ghost use Rattle.std.specs.Prelude.{◌≡◌, ◌+◌, [], length, None, IsSome, OnOk, OnErr, IfOk};
ghost use Rattle.std.specs.List.Retain.{IsFiltered};
ghost use Rattle.blaze_entries.specs.Answers.{AnswersAt, IsCallableAtEach};
ghost use Rattle.blaze_entries.specs.Counted.{uncounted};
ghost use Rattle.blaze_entries.specs.Entries.{shown_list};
ghost use Rattle.blaze_entries.specs.Starts.{StartsAscend, below, from, start_at, without};
ghost use Rattle.blaze_entries.specs.Starts.{IsCloneInserted};

use super::Entries;
use crate::counted::Counted;
use crate::tree::Tree;
use blaze_int::Integer;
use std::alloc::AllocError;
use std::mem::swap;
use std::ops::RangeInclusive;

impl<T: Integer, V> Entries<T, V> {
    /// Keeps the entries that start below `key` and returns the others. If an allocation fails, the entries are
    /// unchanged.
    pub fn split_off(&mut self, key: T) -> Result<Self, AllocError>
        ensures below { OnOk result (self.new.counted
            ≡ record self.old.counted { entries = below (T.rank key) self.old.counted.entries }) }
        ensures from { IfOk result (λ others. others.counted
            ≡ uncounted (from (T.rank key) self.old.counted.entries)) }
        ensures err { OnErr result (self.new.counted ≡ self.old.counted) }
    {
        let tree = self.counted.tree.split_off(key)?;
        Ok(Entries {
            counted: Counted::new(tree),
            alloc: self.alloc,
        })
    }

    /// Exchanges the entries of `self` and `other`. The counters of both do not change. It allocates nothing. O(1).
    pub fn exchange(&mut self, other: &mut Self)
        ensures here { self.new.counted ≡ record self.old.counted { entries = other.old.counted.entries } }
        ensures there { other.new.counted ≡ record other.old.counted { entries = self.old.counted.entries } }
    {
        swap(&mut self.counted.tree, &mut other.counted.tree);
    }
}

impl<T: Integer, V: Drop> Entries<T, V> {
    /// Replaces all entries by a list of (first key, last key, value). It requires that the starts ascend. The counters
    /// do not change. If an allocation fails, the entries are unchanged and the list is dropped. O(n) with n entries,
    /// old and new.
    pub fn set_sorted(&mut self, entries: Vec<(T, T, V)>) -> Result<(), AllocError>
        requires ascend { StartsAscend T.low T.high (shown_list T.rank entries.items) }
        ensures ok { OnOk result (self.new.counted
            ≡ record self.old.counted { entries = shown_list T.rank entries.items }) }
        ensures err { OnErr result (self.new.counted ≡ self.old.counted) }
    {
        let tree = Tree::from_sorted(self.alloc, entries)?;
        self.counted.tree = tree;
        Ok(())
    }

    /// Keeps the entries for which `f` returns `true`. It calls `f` once for each entry, ascending. It allocates
    /// nothing, and the counters do not change. O(n) with n entries, and at most O(log n) more for each removed entry.
    pub fn retain<F: FnMut(&RangeInclusive<T>, &V) -> bool>(&mut self, f: F)
        requires { IsCallableAtEach T.rank F.FnMut f self.old.counted.entries }
        ensures entries { IsFiltered (AnswersAt T.rank F.FnMut) f
            self.old.counted.entries self.new.counted.entries }
        ensures uncounted { self.new.counted ≡ record self.old.counted { entries = self.new.counted.entries } }
    {
        self.counted.tree.retain(f);
    }

    /// Removes all entries. The counters do not change. O(n) with n entries.
    pub fn clear(&mut self)
        ensures { self.new.counted ≡ record self.old.counted { entries = [] } }
    {
        self.counted.tree.clear();
    }

    /// Removes the entry that starts at `start` and returns its value. It allocates nothing, and the counters do not
    /// change. O(log n) with n entries.
    pub fn remove(&mut self, start: T) -> V
        requires present { IsSome (start_at (T.rank start) self.old.counted.entries) }
        ensures entries { self.new.counted
            ≡ record self.old.counted { entries = without (T.rank start) self.old.counted.entries } }
    {
        self.counted.tree.remove(start)
    }
}

impl<T: Integer, V: Clone + Drop> Entries<T, V> {
    /// Inserts an entry that starts at `start`, where no entry may start. It ends where the entry that starts at `of`
    /// ends, with a clone of its value. The counters do not change. If an allocation or the clone fails, the entries
    /// are unchanged. O(log n) with n entries.
    pub fn insert_clone(&mut self, of: T, start: T) -> Result<(), AllocError>
        requires present { IsSome (start_at (T.rank of) self.old.counted.entries) }
        requires absent { start_at (T.rank start) self.old.counted.entries ≡ None }
        ensures ok { OnOk result
            (IsCloneInserted V.is_clone (T.rank of)
            (T.rank start) self.old.counted.entries self.new.counted.entries) }
        ensures same { OnOk result (self.new.counted
            ≡ record self.old.counted { entries = self.new.counted.entries }) }
        ensures longer { OnOk result (length self.new.counted.entries ≡ length self.old.counted.entries + 1) }
        ensures err { OnErr result (self.new.counted ≡ self.old.counted) }
    {
        self.counted.tree.insert_clone(of, start)
    }
}
