//! The entries that share a key with a range.
ghost use Rattle.std.specs.Iterator.{item_count};
ghost use Rattle.std.specs.Prelude.{◌≡◌, ◌≤ℤ◌, ◌<ℤ◌, [], List};
ghost use Rattle.blaze_int.specs.Bounds.{start_rank, end_rank};
ghost use Rattle.blaze_streams.specs.Ranges.{shown_range};
ghost use Rattle.blaze_entries.specs.Ending.{overlapping};
ghost use Rattle.blaze_entries.specs.Entries.{Entry, at};
ghost use Rattle.blaze_entries.specs.Whole.{YieldsWholeFirst, YieldsWholeLast};
ghost use Rattle.blaze_table.specs.Gap.{IsClearFrom};
ghost use Rattle.range_map_blaze.specs.Somewhere.{IsOverlappingSomewhere};
ghost use Rattle.range_map_blaze.specs.Within.{within};

use crate::map::RangeMapBlaze;
use blaze_int::{Integer, bounds_of};
use blaze_table::{Range, RangeTable};
use std::iter::FusedIterator;
use std::marker::Model;
use std::ops::{RangeBounds, RangeInclusive};

/// The entries of a map that share a key with a range, ascending, from both ends: each whole range with a reference to its value.
/// No call of the iterator allocates. `RangeMapBlaze::overlapping` returns it.
#[derive(Drop)]
pub struct Overlapping<'a, T: Integer, V: Eq> {
    // `None` if the range has no key.
    entries: Option<Range<'a, T, V>>,
}

impl<'a, T: Integer, V: Eq> Model for Overlapping<'a, T, V> {
    ghost use Rattle.std.specs.Prelude.{List};
    ghost use Rattle.std.specs.Coded.{coded_list};
    ghost use Rattle.blaze_entries.specs.Entries.{Entry, entry_code};
    ghost use Rattle.range_map_blaze.specs.Within.{all_or_none};

    ghost Value = { List (Entry V) };

    ghost coded = { coded_list (entry_code V.code) };

    ghost view = { λ s. all_or_none s.entries };
}

impl<T: Integer, V: Eq> RangeMapBlaze<T, V> {
    /// Returns an iterator over the entries that share a key with the range, ascending, from both ends: each range with a
    /// reference to its value. The entries are whole: the first and the last may extend past the range. Bounds that name no key
    /// give no entry.
    ///
    /// Neither the call nor the iterator allocates. The call is O(log n) for n entries, and each entry is O(1).
    ///
    /// ```
    /// let mut entries = map.overlapping(12..=20);
    /// entries.next(); // Some((10..=14, 'a'))
    /// entries.next(); // Some((15..=15, 'b'))
    /// ```
    pub fn overlapping<R: RangeBounds<T> + Drop>(&self, range: R) -> Overlapping<'_, T, V>
        ensures within { R.has_bounds range
            → start_rank T.rank T.low (R.start_bound range) ≤ℤ end_rank T.rank T.high
            (R.end_bound range)
            → result ≡ overlapping (start_rank T.rank T.low (R.start_bound range))
            (end_rank T.rank T.high (R.end_bound range)) self.now.entries }
        ensures none { R.has_bounds range
            → end_rank T.rank T.high (R.end_bound range) <ℤ start_rank T.rank T.low
            (R.start_bound range)
            → result ≡ [] }
        ensures free { R.has_bounds range → result ≡ []
            → IsClearFrom (at self.now.entries) (start_rank T.rank T.low (R.start_bound range))
            (end_rank T.rank T.high (R.end_bound range)) }
        ensures somewhere { IsOverlappingSomewhere self.now.entries result }
    {
        match bounds_of(&range) {
            Some((start, end)) => entries_on(&self.table, start, end),
            None => Overlapping { entries: None },
        }
    }
}

/// The entries of a table that share a key with the range from `start` up to `end`. `overlapping`, `within` and `gaps` begin with
/// it.
pub(crate) fn entries_on<T: Integer, V: Eq>(
    table: &RangeTable<T, V>,
    start: T,
    end: T,
) -> Overlapping<'_, T, V>
    requires { T.rank start ≤ℤ T.rank end }
    ensures { result ≡ overlapping (T.rank start) (T.rank end) table.now.entries }
{
    Overlapping {
        entries: Some(table.overlapping(start, end)),
    }
}

/// No entries. Bounds that name no key have no first and last key to look up.
pub(crate) fn no_entries<'a, T: Integer, V: Eq>() -> Overlapping<'a, T, V>
    ensures { result ≡ [] }
{
    Overlapping { entries: None }
}

impl<'a, T: Integer, V: Eq> Iterator for Overlapping<'a, T, V> {
    type Item = (RangeInclusive<T>, &'a V);

    ghost next_gives = { YieldsWholeFirst (λ p. p.0) (shown_range T.rank (λ v. v.now)) (λ s. s) };

    ghost remaining = { item_count (λ s. s) };

    fn next(&mut self) -> Option<(RangeInclusive<T>, &'a V)> {
        let Some(entries) = &mut self.entries else {
            return None;
        };
        let (start, end, value) = entries.next()?;
        Some((start..=end, value))
    }
}

impl<'a, T: Integer, V: Eq> DoubleEndedIterator for Overlapping<'a, T, V> {
    ghost next_back_gives = { YieldsWholeLast (λ p. p.0)
        (shown_range T.rank (λ v. v.now)) (λ s. s) };

    fn next_back(&mut self) -> Option<(RangeInclusive<T>, &'a V)> {
        let Some(entries) = &mut self.entries else {
            return None;
        };
        let (start, end, value) = entries.next_back()?;
        Some((start..=end, value))
    }
}

impl<'a, T: Integer, V: Eq> FusedIterator for Overlapping<'a, T, V> {}
