//! The tree of entries with counters of the work on it: lookups, inserted entries and removed entries. Another crate
//! cannot read the tree without a count.
ghost use Rattle.std.specs.Prelude.{◌≡◌, ◌<◌, ◌^◌, length};
ghost use Rattle.blaze_entries.specs.Counted.{uncounted};
ghost use Rattle.blaze_entries.specs.Starts.{StartsAscend};

mod edits;
mod looks;

use crate::count::Count;
use crate::into_iter::IntoIter;
use crate::tree::Tree;
use blaze_int::Integer;
use std::marker::Model;

/// Entries ordered by their starts, with counters of the work on them.
#[derive(Drop)]
pub struct Counted<T: Integer, V> {
    pub(crate) tree: Tree<T, V>,
    looks: Count,
    put_in: Count,
    taken_out: Count,
}

impl<T: Integer, V> Model for Counted<T, V> {
    ghost use Rattle.blaze_entries.specs.Counted.{CountedEntries, counted_code};

    ghost Value = { CountedEntries V };

    ghost coded = { counted_code V.code };

    ghost view = { λ c. record {
      entries = c.tree;
      looks = c.looks.number;
      put_in = c.put_in.number;
      taken_out = c.taken_out.number;
    } };
}

impl<T: Integer, V> Counted<T, V> {
    /// Returns a tree's entries with all counters at 0.
    pub(crate) fn new(tree: Tree<T, V>) -> Self
        ensures { result ≡ uncounted tree }
    {
        Counted {
            tree,
            looks: Count::new(),
            put_in: Count::new(),
            taken_out: Count::new(),
        }
    }

    /// Returns the entries with all counters at 0. It allocates nothing.
    pub(crate) fn uncounted(self) -> Self
        ensures { result ≡ uncounted self.entries }
    {
        let Counted { tree, .. } = self;
        Counted::new(tree)
    }

    /// Does nothing. Its contract states that the starts are keys and ascend.
    pub fn in_hand(&self)
        ensures { StartsAscend T.low T.high self.now.entries }
    {
        self.tree.in_hand();
    }

    /// Does nothing. Its contract states that a `usize` can represent the number of entries.
    pub fn length_in_hand(&self)
        ensures { length self.now.entries < 2 ^ 64 }
    {
        let _ = self.tree.len();
    }
}

impl<T: Integer, V: Drop> Counted<T, V> {
    /// Returns the owned entries, ascending, each as (first key, last key, value). It allocates nothing. All n entries
    /// take O(n) time.
    pub(crate) fn into_entries(self) -> IntoIter<T, V>
        ensures { result ≡ self.entries }
    {
        let Counted { tree, .. } = self;
        tree.into_iter()
    }
}
