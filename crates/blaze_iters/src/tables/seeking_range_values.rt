//! An iterator over a borrowed table's entries that can seek a key.
ghost use Rattle.std.specs.Prelude.{◌≡◌, refl};
ghost use Rattle.std.specs.Iterator.{YieldsFirstBy, item_count};
ghost use Rattle.blaze_streams.specs.Ranges.{shown_range};

use blaze_int::Integer;
use blaze_int::compare::greater;
use blaze_streams::{SortedDisjointMap, ValueCarrier};
use blaze_table::{Range, RangeTable};
use std::iter::FusedIterator;
use std::marker::Model;
use std::ops::RangeInclusive;

/// An iterator over a borrowed table's entries, ascending: each range with a reference to its value. A seek takes
/// O(log n) time with n entries.
#[derive(Drop)]
pub struct SeekingRangeValuesIter<'a, T: Integer, V: Eq> {
    entries: Range<'a, T, V>,
    table: &'a RangeTable<T, V>,
}

impl<'a, T: Integer, V: Eq> Model for SeekingRangeValuesIter<'a, T, V> {
    ghost use Rattle.std.specs.Prelude.{List};
    ghost use Rattle.std.specs.Coded.{coded_list};
    ghost use Rattle.blaze_entries.specs.Entries.{Entry, entry_code};
    ghost use Rattle.blaze_streams.specs.LastParts.{IsLastPart};

    ghost Value = { List (Entry V) };

    ghost coded = { coded_list (entry_code V.code) };

    ghost view = { λ s. s.entries };

    ghost invariant = { λ s. IsLastPart s.table.now.entries s.entries };
}

impl<'a, T: Integer, V: Eq> SeekingRangeValuesIter<'a, T, V> {
    /// Returns an iterator over the table's entries. It allocates nothing. The call takes O(log n) time, and all n
    /// entries take O(n).
    pub fn new(table: &'a RangeTable<T, V>) -> Self
        ensures { result ≡ table.now.entries }
    {
        table.in_hand();
        SeekingRangeValuesIter {
            entries: table.iter_ending_from(T::min_value()),
            table,
        }
    }
}

impl<'a, T: Integer, V: Eq> Iterator for SeekingRangeValuesIter<'a, T, V> {
    type Item = (RangeInclusive<T>, &'a V);

    ghost next_gives = { YieldsFirstBy (shown_range T.rank (λ v. v.now)) (λ s. s) };

    ghost remaining = { item_count (λ s. s) };

    fn next(&mut self) -> Option<(RangeInclusive<T>, &'a V)> {
        let (start, end, value) = self.entries.next()?;
        Some((start..=end, value))
    }
}

impl<'a, T: Integer, V: Eq> FusedIterator for SeekingRangeValuesIter<'a, T, V> {}

impl<'a, T: Integer, V: Eq + Clone> SortedDisjointMap<T, &'a V>
    for SeekingRangeValuesIter<'a, T, V> {
    ghost left = { λ s. s };

    ghost least = { λ _. 0 };

    fn in_hand(&self) {
        let table = self.table;
        table.in_hand();
    }

    fn least_len(&self) -> usize {
        0
    }

    /// Skips the entries that end below `key`, with two lookups. The next entry may end above `key`, so the later of
    /// its start and `key` is looked up.
    fn seek(&mut self, key: T) {
        let table = self.table;
        table.in_hand();
        if let Some(found) = self.entries.next() {
            let (start, _, _) = found;
            self.entries = table.iter_ending_from(greater(start, key));
        }
    }

    ghost ready = { λ _. tt };

    ghost counted = { λ _. refl };

    ghost gives = { λ _ _ _ given. given };
}
