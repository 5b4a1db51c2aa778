//! The entries of a map cut to a range of keys, and how many keys of a range have a value.
ghost use Rattle.std.specs.Int.{int_max, int_min};
ghost use Rattle.std.specs.Iterator.{item_count};
ghost use Rattle.std.specs.Prelude.{◌≡◌, ◌≤ℤ◌, ◌<ℤ◌, pos, [], List};
ghost use Rattle.std.specs.Range.{range_inclusive_start, range_inclusive_end};
ghost use Rattle.blaze_int.specs.Bounds.{start_rank, end_rank};
ghost use Rattle.blaze_streams.specs.Ranges.{shown_range};
ghost use Rattle.blaze_entries.specs.Count.{keys_in, mapped_keys};
ghost use Rattle.blaze_entries.specs.Entries.{Entry, at};
ghost use Rattle.blaze_entries.specs.Whole.{IsWhole, YieldsWholeFirst, YieldsWholeLast};
ghost use Rattle.blaze_table.specs.Gap.{IsClearFrom};
ghost use Rattle.range_map_blaze.specs.EntriesWithin.{IsWithin, IsWithinSomewhere, IsCountSomewhere};

use crate::map::RangeMapBlaze;
use crate::overlapping::{Overlapping, entries_on, no_entries};
use blaze_int::compare::{greater, length, lesser};
use blaze_int::{Integer, SafeLength, bounds_of};
use blaze_table::RangeTable;
use std::iter::FusedIterator;
use std::marker::Model;
use std::ops::{RangeBounds, RangeInclusive};

/// The entries of a map cut to a range of keys, ascending, from both ends: each range with a reference to its value. No call of
/// the iterator allocates. `RangeMapBlaze::within` returns it.
#[derive(Drop)]
pub struct Within<'a, T: Integer, V: Eq> {
    // The first and the last key of the range.
    start: T,
    end: T,
    // The entries that share a key with the range, whole.
    entries: Overlapping<'a, T, V>,
}

impl<'a, T: Integer, V: Eq> Model for Within<'a, T, V> {
    ghost use Rattle.std.specs.Prelude.{List};
    ghost use Rattle.std.specs.Coded.{coded_list};
    ghost use Rattle.blaze_entries.specs.Entries.{Entry, entry_code};
    ghost use Rattle.range_map_blaze.specs.Within.{cut_each};

    ghost Value = { List (Entry V) };

    ghost coded = { coded_list (entry_code V.code) };

    ghost view = { λ s. cut_each (T.rank s.start) (T.rank s.end) s.entries };
}

impl<T: Integer, V: Eq> RangeMapBlaze<T, V> {
    /// Returns an iterator over the entries of the map cut to the range, ascending, from both ends: each range with a reference
    /// to its value. Bounds that name no key give no entry.
    ///
    /// Neither the call nor the iterator allocates. The call is O(log n) for n entries, and each entry is O(1).
    ///
    /// ```
    /// let mut entries = map.within(12..=20);
    /// entries.next(); // Some((12..=14, 'a'))
    /// entries.next(); // Some((15..=15, 'b'))
    /// ```
    pub fn within<R: RangeBounds<T> + Drop>(&self, range: R) -> Within<'_, T, V>
        ensures within { R.has_bounds range
            → IsWithin V.eq T.low T.high (start_rank T.rank T.low (R.start_bound range))
            (end_rank T.rank T.high (R.end_bound range)) self.now.entries result }
        ensures none { R.has_bounds range
            → end_rank T.rank T.high (R.end_bound range) <ℤ start_rank T.rank T.low
            (R.start_bound range)
            → result ≡ [] }
        ensures somewhere { IsWithinSomewhere V.eq T.low T.high self.now.entries result }
    {
        self.in_hand();
        match bounds_of(&range) {
            Some((start, end)) => entries_within(&self.table, start, end),
            None => Within {
                start: T::min_value(),
                end: T::max_value(),
                entries: no_entries(),
            },
        }
    }

    /// Returns how many keys in the range have a value: 0 if the bounds name no key. Does not allocate. O(log n) for n entries,
    /// and O(1) for each entry that shares a key with the range.
    ///
    /// ```
    /// map.len_within(12..=34); // 9
    /// ```
    pub fn len_within<R: RangeBounds<T> + Drop>(&self, range: R) -> T::SafeLen
        ensures mapped { R.has_bounds range
            → T.SafeLen.number result
            ≡ mapped_keys (start_rank T.rank T.low (R.start_bound range))
            (end_rank T.rank T.high (R.end_bound range)) (at self.now.entries) }
        ensures lengths { R.has_bounds range → (es : List (Entry V))
            × IsWithin V.eq T.low T.high (start_rank T.rank T.low (R.start_bound range))
            (end_rank T.rank T.high (R.end_bound range)) self.now.entries es
            × (pos (T.SafeLen.number result) ≡ keys_in es) }
        ensures none { R.has_bounds range
            → end_rank T.rank T.high (R.end_bound range) <ℤ start_rank T.rank T.low
            (R.start_bound range)
            → T.SafeLen.number result ≡ 0 }
        ensures free { R.has_bounds range → T.SafeLen.number result ≡ 0
            → IsClearFrom (at self.now.entries) (start_rank T.rank T.low (R.start_bound range))
            (end_rank T.rank T.high (R.end_bound range)) }
        ensures somewhere { IsCountSomewhere self.now.entries (T.SafeLen.number result) }
    {
        self.in_hand();
        match bounds_of(&range) {
            Some((start, end)) => count_within(&self.table, start, end),
            None => T::SafeLen::zero(),
        }
    }
}

// The entries of a table cut to the keys from `start` up to `end`, when they are given.
fn entries_within<T: Integer, V: Eq>(table: &RangeTable<T, V>, start: T, end: T) -> Within<'_, T, V>
    requires { T.rank start ≤ℤ T.rank end }
    ensures { IsWithin V.eq T.low T.high (T.rank start) (T.rank end) table.now.entries result }
{
    table.in_hand();
    Within {
        start,
        end,
        entries: entries_on(table, start, end),
    }
}

// The keys of a range from `start` up to `end`. An entry may extend past both of them.
fn part_of<T: Integer>(range: RangeInclusive<T>, start: T, end: T) -> RangeInclusive<T>
    ensures start { T.rank (range_inclusive_start result)
        ≡ int_max (T.rank start) (T.rank (range_inclusive_start range)) }
    ensures end { T.rank (range_inclusive_end result)
        ≡ int_min (T.rank end) (T.rank (range_inclusive_end range)) }
    ensures whole { IsWhole result }
{
    let (first, last) = range.into_inner();
    greater(first, start)..=lesser(last, end)
}

// How many keys from `start` up to `end` have a value.
fn count_within<T: Integer, V: Eq>(table: &RangeTable<T, V>, start: T, end: T) -> T::SafeLen
    requires { T.rank start ≤ℤ T.rank end }
    ensures mapped { T.SafeLen.number result
        ≡ mapped_keys (T.rank start) (T.rank end) (at table.now.entries) }
    ensures lengths { (es : List (Entry V))
        × IsWithin V.eq T.low T.high (T.rank start) (T.rank end) table.now.entries es
        × (pos (T.SafeLen.number result) ≡ keys_in es) }
{
    table.in_hand();
    let mut sum = T::SafeLen::zero();
    for (first, last, _) in table.overlapping(start, end) {
        sum = sum.plus(length(greater(first, start), lesser(last, end)));
    }
    sum
}

impl<'a, T: Integer, V: Eq> Iterator for Within<'a, T, V> {
    type Item = (RangeInclusive<T>, &'a V);

    ghost next_gives = { YieldsWholeFirst (λ p. p.0) (shown_range T.rank (λ v. v.now)) (λ s. s) };

    ghost remaining = { item_count (λ s. s) };

    fn next(&mut self) -> Option<(RangeInclusive<T>, &'a V)> {
        let (range, value) = self.entries.next()?;
        Some((part_of(range, self.start, self.end), value))
    }
}

impl<'a, T: Integer, V: Eq> DoubleEndedIterator for Within<'a, T, V> {
    ghost next_back_gives = { YieldsWholeLast (λ p. p.0)
        (shown_range T.rank (λ v. v.now)) (λ s. s) };

    fn next_back(&mut self) -> Option<(RangeInclusive<T>, &'a V)> {
        let (range, value) = self.entries.next_back()?;
        Some((part_of(range, self.start, self.end), value))
    }
}

impl<'a, T: Integer, V: Eq> FusedIterator for Within<'a, T, V> {}
