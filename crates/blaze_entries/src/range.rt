//! An iterator over the entries whose starts are in a range of keys, from both ends.
ghost use Rattle.std.specs.Prelude.{◌≡◌};
ghost use Rattle.std.specs.Iterator.{YieldsFirstBy, YieldsLastBy, item_count};
ghost use Rattle.blaze_entries.specs.Entries.{shown_entry};
ghost use Rattle.blaze_entries.specs.Nodes.{shown_nodes, entries_of, AreFull};

use crate::node::{EndValue, shown};
use crate::start::Start;
use blaze_int::Integer;
use std::collections::btree_map;
use std::iter::FusedIterator;
use std::marker::Model;

/// An iterator over the entries whose starts are in a range of keys, ascending, each as (first key, last key, value).
#[derive(Drop)]
pub struct Range<'a, T: Integer, V> {
    rest: btree_map::Range<'a, Start<T>, EndValue<T, Option<V>>>,
}

impl<'a, T: Integer, V> Model for Range<'a, T, V> {
    ghost use Rattle.std.specs.Prelude.{List};
    ghost use Rattle.std.specs.Coded.{coded_list};
    ghost use Rattle.blaze_entries.specs.Entries.{Entry, entry_code};

    ghost Value = { List (Entry V) };

    ghost coded = { coded_list (entry_code V.code) };

    ghost use Rattle.blaze_entries.specs.Nodes.{shown_nodes, entries_of, AreFull};

    ghost view = { λ s. entries_of T.rank s.rest };

    ghost invariant = { λ s. AreFull (shown_nodes T.rank s.rest) };
}

impl<'a, T: Integer, V> Range<'a, T, V> {
    /// Returns an iterator over the entries of full nodes.
    pub(crate) fn new(rest: btree_map::Range<'a, Start<T>, EndValue<T, Option<V>>>) -> Self
        requires { AreFull (shown_nodes T.rank rest) }
        ensures { result ≡ entries_of T.rank rest.entry }
    {
        Range { rest }
    }
}

impl<'a, T: Integer, V> Iterator for Range<'a, T, V> {
    type Item = (T, T, &'a V);

    ghost next_gives = { YieldsFirstBy (shown_entry T.rank (λ v. v.now)) (λ s. s) };

    ghost remaining = { item_count (λ s. s) };

    fn next(&mut self) -> Option<(T, T, &'a V)> {
        shown(self.rest.next())
    }
}

impl<'a, T: Integer, V> DoubleEndedIterator for Range<'a, T, V> {
    ghost next_back_gives = { YieldsLastBy (shown_entry T.rank (λ v. v.now)) (λ s. s) };

    fn next_back(&mut self) -> Option<(T, T, &'a V)> {
        shown(self.rest.next_back())
    }
}

impl<'a, T: Integer, V> FusedIterator for Range<'a, T, V> {}
