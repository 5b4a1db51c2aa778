//! An iterator over a table's owned entries, with shared values.
ghost use Rattle.std.specs.Prelude.{◌≡◌, length, map, refl, Some, IfSome, IfOk};
ghost use Rattle.std.specs.Iterator.{item_count, UpTo};
ghost use Rattle.std.specs.Iterator.SizeHint.{IsWithinCount};
ghost use Rattle.std.specs.Rc.{rc_value};
ghost use Rattle.blaze_entries.specs.Entries.{shown_entry};
ghost use Rattle.blaze_streams.specs.Ranges.{shown_range};
ghost use Rattle.blaze_entries.specs.Whole.{YieldsWholeFirst, YieldsWholeLast};

use blaze_int::Integer;
use blaze_streams::{BothEnds, SortedDisjointMap};
use blaze_table::RangeTable;
use std::alloc::{AllocError, Global};
use std::iter::FusedIterator;
use std::marker::Model;
use std::ops::RangeInclusive;
use std::rc::Rc;
use std::vec;

/// An iterator over a table's owned entries, ascending: each range with its value in an `Rc`. It is double-ended.
#[derive(Drop)]
pub struct IntoRangeValuesIter<T: Integer, V: Eq + Drop> {
    entries: vec::IntoIter<(T, T, Rc<V>)>,
}

impl<T: Integer, V: Eq + Drop> Model for IntoRangeValuesIter<T, V> {
    ghost use Rattle.std.specs.Prelude.{List, map};
    ghost use Rattle.std.specs.Coded.{coded_list};
    ghost use Rattle.std.specs.Rc.{rc_value};
    ghost use Rattle.std.specs.Vec.Iter.{into_iter_items};
    ghost use Rattle.blaze_entries.specs.Entries.{Entry, entry_code, shown_entry};
    ghost use Rattle.blaze_entries.specs.Canonical.{IsRangeMap};

    ghost Value = { List (Entry V) };

    ghost coded = { coded_list (entry_code V.code) };

    ghost view = { λ s. map (shown_entry T.rank rc_value) (into_iter_items s.entries) };

    ghost invariant = { λ s. IsRangeMap V.eq T.low T.high
        (map (shown_entry T.rank rc_value) (into_iter_items s.entries)) };
}

// Returns the entry as (first key, last key, value), with its value in an `Rc`.
fn shared<T: Integer, V: Eq + Drop>(
    alloc: Global,
    entry: (T, T, V),
) -> Result<(T, T, Rc<V>), AllocError>
    ensures { IfOk result (λ new. shown_entry T.rank rc_value new
        ≡ shown_entry T.rank (λ v. v) entry) }
{
    let (start, end, value) = entry;
    Ok((start, end, Rc::new(alloc, value)?))
}

// Returns the entries of a table as (first key, last key, value), with each value in an `Rc`.
fn shared_entries<T: Integer, V: Eq + Drop>(
    alloc: Global,
    table: RangeTable<T, V>,
) -> Result<Vec<(T, T, Rc<V>)>, AllocError>
    ensures { IfOk result (λ entries. map (shown_entry T.rank rc_value) entries.items
        ≡ table.entries) }
{
    let mut entries = Vec::with_capacity(alloc, table.entries())?;
    for entry in table {
        entries.push(shared(alloc, entry)?)?;
    }
    Ok(entries)
}

impl<T: Integer, V: Eq + Drop> IntoRangeValuesIter<T, V> {
    /// Returns an iterator over the table's entries. It allocates a list and an `Rc` for each value, and `next` and
    /// `next_back` allocate nothing. If an allocation fails, the table is dropped. O(n) with n entries.
    pub fn new(alloc: Global, table: RangeTable<T, V>) -> Result<Self, AllocError>
        ensures { IfOk result (λ iter. iter ≡ table.entries) }
    {
        table.in_hand();
        let entries = shared_entries(alloc, table)?;
        Ok(IntoRangeValuesIter {
            entries: entries.into_iter(),
        })
    }
}

impl<T: Integer, V: Eq + Drop> Iterator for IntoRangeValuesIter<T, V> {
    type Item = (RangeInclusive<T>, Rc<V>);

    ghost next_gives = { YieldsWholeFirst (λ p. p.0) (shown_range T.rank rc_value) (λ s. s) };

    ghost remaining = { item_count (λ s. s) };

    fn next(&mut self) -> Option<(RangeInclusive<T>, Rc<V>)> {
        let (start, end, value) = self.entries.next()?;
        Some((start..=end, value))
    }

    /// Returns the exact number of remaining entries as both bounds. O(1).
    fn size_hint(&self) -> (usize, Option<usize>)
        ensures lower { IsWithinCount result.0 (item_count (λ s. s) self.now) }
        ensures upper { IfSome result.1 (UpTo (item_count (λ s. s) self.now)) }
        ensures exact { result ≡ (length self.now, Some (length self.now)) }
    {
        let len = self.len();
        (len, Some(len))
    }
}

impl<T: Integer, V: Eq + Drop> DoubleEndedIterator for IntoRangeValuesIter<T, V> {
    ghost next_back_gives = { YieldsWholeLast (λ p. p.0) (shown_range T.rank rc_value) (λ s. s) };

    fn next_back(&mut self) -> Option<(RangeInclusive<T>, Rc<V>)> {
        let (start, end, value) = self.entries.next_back()?;
        Some((start..=end, value))
    }
}

impl<T: Integer, V: Eq + Drop> ExactSizeIterator for IntoRangeValuesIter<T, V> {
    fn len(&self) -> usize {
        self.entries.len()
    }
}

impl<T: Integer, V: Eq + Drop> FusedIterator for IntoRangeValuesIter<T, V> {}

impl<T: Integer, V: Eq + Clone> SortedDisjointMap<T, Rc<V>> for IntoRangeValuesIter<T, V> {
    ghost left = { λ s. s };

    ghost least = { λ s. length s };

    fn in_hand(&self) {
        let _ = &self.entries;
    }

    fn least_len(&self) -> usize {
        self.size_hint().0
    }

    ghost ready = { λ _. tt };

    ghost counted = { λ _. refl };

    ghost gives = { λ _ _ _ given. given.0 };
}

impl<T: Integer, V: Eq + Clone> BothEnds<T, Rc<V>> for IntoRangeValuesIter<T, V> {
    ghost ready_back = { λ _. tt };

    ghost gives_back = { λ _ _ _ given. given.0 };
}
