//! Lookups of a table's entries by a key.
ghost use Rattle.std.specs.Prelude.{◌≡◌, ◌≤ℤ◌, int_lt, find, reverse, option_map};
ghost use Rattle.blaze_entries.specs.Ending.{ending_from, overlapping};
ghost use Rattle.blaze_entries.specs.Entries.{at, entry_at, shown_entry};

use super::RangeTable;
use crate::search::{entries_ending_from, entry_holding};
use blaze_entries::Range;
use blaze_int::Integer;
use blaze_int::compare::is_below;

impl<T: Integer, V: Eq> RangeTable<T, V> {
    /// Returns the entry that contains `key` as (first key, last key, value). O(log n) with n entries.
    pub fn find(&self, key: T) -> Option<(T, T, &V)>
        ensures entry { option_map (shown_entry T.rank (λ v. v.now)) result
            ≡ entry_at self.now.entries (T.rank key) }
        ensures value { option_map (λ e. e.2.now) result ≡ at self.now.entries (T.rank key) }
    {
        entry_holding(&self.entries, key)
    }

    /// Returns the first entry that starts above `key` as (first key, last key, value). O(log n) with n entries.
    pub fn next_above(&self, key: T) -> Option<(T, T, &V)>
        ensures { option_map (shown_entry T.rank (λ v. v.now)) result
            ≡ find (λ e. int_lt (T.rank key) e.lo) self.now.entries }
    {
        self.entries.in_hand();
        key.in_hand();
        self.entries.at_or_above(key.checked_add_one()?)
    }

    /// Returns the last entry that ends below `key` as (first key, last key, value). O(log n) with n entries.
    pub fn next_below(&self, key: T) -> Option<(T, T, &V)>
        ensures { option_map (shown_entry T.rank (λ v. v.now)) result
            ≡ find (λ e. int_lt e.hi (T.rank key)) (reverse self.now.entries) }
    {
        self.entries.in_hand();
        let found = self.entries.at_or_below(key)?;
        let (start, end, _) = found;
        if is_below(end, key) {
            Some(found)
        } else {
            self.entries.below(start)
        }
    }

    /// Iterates over the entries that end at `key` or above, ascending, each as (first key, last key, value). It
    /// allocates nothing. The call takes O(log n) time with n entries.
    pub fn iter_ending_from(&self, key: T) -> Range<'_, T, V>
        ensures { result ≡ ending_from (T.rank key) self.now.entries }
    {
        entries_ending_from(&self.entries, key)
    }

    /// Iterates over the entries that share a key with the range from `lo` to `hi`, ascending, each whole as (first
    /// key, last key, value). The iterator is double-ended and allocates nothing. The call takes O(log n) time with n
    /// entries.
    pub fn overlapping(&self, lo: T, hi: T) -> Range<'_, T, V>
        requires { T.rank lo ≤ℤ T.rank hi }
        ensures { result ≡ overlapping (T.rank lo) (T.rank hi) self.now.entries }
    {
        match entry_holding(&self.entries, lo) {
            Some(found) => {
                let (start, _, _) = found;
                self.entries.iter_between(start, hi)
            }
            None => self.entries.iter_between(lo, hi),
        }
    }
}
