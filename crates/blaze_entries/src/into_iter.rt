//! An iterator over owned entries, from both ends.
ghost use Rattle.std.specs.Prelude.{◌≡◌, length, Some, IfSome};
ghost use Rattle.std.specs.Iterator.{YieldsFirstBy, YieldsLastBy, item_count, UpTo};
ghost use Rattle.std.specs.Iterator.SizeHint.{IsWithinCount};
ghost use Rattle.blaze_entries.specs.Entries.{shown_entry};
ghost use Rattle.blaze_entries.specs.Nodes.{shown_nodes, entries_of, AreFull};

use crate::node::{EndValue, given};
use crate::start::Start;
use blaze_int::Integer;
use std::collections::btree_map;
use std::iter::FusedIterator;
use std::marker::Model;

/// An iterator over owned entries, ascending, each as (first key, last key, value).
#[derive(Drop)]
pub struct IntoIter<T: Integer, V> {
    rest: btree_map::IntoIter<Start<T>, EndValue<T, Option<V>>>,
}

impl<T: Integer, V> Model for IntoIter<T, V> {
    ghost use Rattle.std.specs.Prelude.{List};
    ghost use Rattle.std.specs.Coded.{coded_list};
    ghost use Rattle.blaze_entries.specs.Entries.{Entry, entry_code};

    ghost Value = { List (Entry V) };

    ghost coded = { coded_list (entry_code V.code) };

    ghost use Rattle.blaze_entries.specs.Nodes.{shown_nodes, entries_of, AreFull};

    ghost view = { λ s. entries_of T.rank s.rest };

    ghost invariant = { λ s. AreFull (shown_nodes T.rank s.rest) };
}

impl<T: Integer, V> IntoIter<T, V> {
    /// Returns an iterator over the entries of full nodes.
    pub(crate) fn new(rest: btree_map::IntoIter<Start<T>, EndValue<T, Option<V>>>) -> Self
        requires { AreFull (shown_nodes T.rank rest) }
        ensures { result ≡ entries_of T.rank rest }
    {
        IntoIter { rest }
    }
}

impl<T: Integer, V: Drop> Iterator for IntoIter<T, V> {
    type Item = (T, T, V);

    ghost next_gives = { YieldsFirstBy (shown_entry T.rank (λ v. v)) (λ s. s) };

    ghost remaining = { item_count (λ s. s) };

    #[inline(never)]
    fn next(&mut self) -> Option<(T, T, V)> {
        given(self.rest.next())
    }

    /// Returns the exact number of remaining entries as both bounds. O(1).
    fn size_hint(&self) -> (usize, Option<usize>)
        ensures lower { IsWithinCount result.0 (item_count (λ s. s) self.now) }
        ensures upper { IfSome result.1 (UpTo (item_count (λ s. s) self.now)) }
        ensures exact { result ≡ (length self.now, Some (length self.now)) }
    {
        let len = self.len();
        (len, Some(len))
    }
}

impl<T: Integer, V: Drop> DoubleEndedIterator for IntoIter<T, V> {
    ghost next_back_gives = { YieldsLastBy (shown_entry T.rank (λ v. v)) (λ s. s) };

    #[inline(never)]
    fn next_back(&mut self) -> Option<(T, T, V)> {
        given(self.rest.next_back())
    }
}

impl<T: Integer, V: Drop> ExactSizeIterator for IntoIter<T, V> {
    fn len(&self) -> usize {
        self.rest.len()
    }
}

impl<T: Integer, V: Drop> FusedIterator for IntoIter<T, V> {}
